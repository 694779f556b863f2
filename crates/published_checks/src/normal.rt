// Table 4: normal control.
use crate::example::{Attempt, Example};
use crate::meter::{Bias, Pulse};
use method::{Line, Truncated, Verdict};
use std::test::Fail;

const NO_PULSE: Pulse = Pulse {
    observation: 0,
    size: 0,
};

const FOUR_PULSES: Bias = Bias::Pulsed {
    bias: 13,
    pulses: [
        Pulse {
            observation: 10,
            size: 2,
        },
        Pulse {
            observation: 17,
            size: 5,
        },
        Pulse {
            observation: 18,
            size: 4,
        },
        Pulse {
            observation: 19,
            size: 3,
        },
    ],
};

const ONE_PULSE: Bias = Bias::Pulsed {
    bias: 13,
    pulses: [
        Pulse {
            observation: 10,
            size: 302,
        },
        NO_PULSE,
        NO_PULSE,
        NO_PULSE,
    ],
};

const JUMP: Bias = Bias::Jumping {
    outer: 40,
    inner: 70,
    from: 5,
    to: 35,
};

// Cut, with no more outs than the cut number.
const FIT_AT_40: Attempt = Attempt {
    observations: 40,
    sequence: Verdict::Fit,
    quantity: Verdict::Fit,
    dominance: false,
};

const UNFIT_AT_13: Attempt = Attempt {
    observations: 13,
    sequence: Verdict::Unfit,
    quantity: Verdict::Unfit,
    dominance: false,
};

const UNFIT_AT_4: Attempt = Attempt {
    observations: 4,
    sequence: Verdict::Unfit,
    quantity: Verdict::Unfit,
    dominance: false,
};

const UNFIT_AT_7: Attempt = Attempt {
    observations: 7,
    sequence: Verdict::Unfit,
    quantity: Verdict::Unfit,
    dominance: false,
};

const FIT_AT_15: Attempt = Attempt {
    observations: 15,
    sequence: Verdict::Fit,
    quantity: Verdict::Fit,
    dominance: false,
};

const DOMINANT_FIT_AT_15: Attempt = Attempt {
    observations: 15,
    sequence: Verdict::Fit,
    quantity: Verdict::Fit,
    dominance: true,
};

// The sequence alone is unfit.
const DOMINANT_UNFIT_AT_16: Attempt = Attempt {
    observations: 16,
    sequence: Verdict::Unfit,
    quantity: Verdict::Fit,
    dominance: true,
};

const DOMINANT_UNFIT_AT_7: Attempt = Attempt {
    observations: 7,
    sequence: Verdict::Unfit,
    quantity: Verdict::Unfit,
    dominance: true,
};

// The sequence alone is unfit.
const PULSED_UNFIT_AT_19: Attempt = Attempt {
    observations: 19,
    sequence: Verdict::Unfit,
    quantity: Verdict::Fit,
    dominance: false,
};

// Quantity control alone is unfit.
const PULSED_FIT_AT_24: Attempt = Attempt {
    observations: 24,
    sequence: Verdict::Fit,
    quantity: Verdict::Unfit,
    dominance: false,
};

const TABLE_4: [Example; 15] = [
    Example {
        number: 1,
        bias: Bias::Steady(13),
        printed_meter: 200,
        printed_ratio: 50,
        meter: 20,
        reference: 4,
        // printed 1.76; it is 1.75492
        tolerance: 175,
        first: FIT_AT_40,
        second: None,
        outs: Some(4),
        verdict: Verdict::Fit,
    },
    Example {
        number: 2,
        bias: Bias::Steady(13),
        printed_meter: 182,
        printed_ratio: 50,
        // printed 18.2 and 3.64; see the test of this example alone
        meter: 18,
        reference: 3,
        tolerance: 160,
        first: UNFIT_AT_13,
        second: None,
        outs: None,
        verdict: Verdict::Unfit,
    },
    Example {
        number: 3,
        bias: Bias::Steady(13),
        printed_meter: 200,
        printed_ratio: 20,
        meter: 20,
        reference: 10,
        tolerance: 139,
        first: UNFIT_AT_4,
        second: None,
        outs: None,
        verdict: Verdict::Unfit,
    },
    Example {
        number: 4,
        bias: Bias::Steady(13),
        printed_meter: 310,
        printed_ratio: 15,
        meter: 31,
        // printed 20.67
        reference: 21,
        tolerance: 183,
        first: FIT_AT_15,
        second: None,
        outs: None,
        verdict: Verdict::Fit,
    },
    Example {
        number: 5,
        bias: Bias::Steady(40),
        printed_meter: 520,
        printed_ratio: 50,
        meter: 52,
        // printed 10.4
        reference: 10,
        // printed 4.6; it is 4.5628
        tolerance: 456,
        first: DOMINANT_FIT_AT_15,
        second: None,
        outs: None,
        verdict: Verdict::Fit,
    },
    Example {
        number: 6,
        bias: Bias::Steady(40),
        printed_meter: 500,
        printed_ratio: 50,
        meter: 50,
        reference: 10,
        tolerance: 439,
        first: DOMINANT_UNFIT_AT_16,
        second: Some((420, DOMINANT_UNFIT_AT_7)),
        outs: None,
        verdict: Verdict::Unfit,
    },
    Example {
        number: 7,
        bias: Bias::Steady(40),
        printed_meter: 500,
        printed_ratio: 33,
        meter: 50,
        // printed 15.15
        reference: 15,
        // printed 4.09; it is 4.0717
        tolerance: 407,
        first: DOMINANT_UNFIT_AT_7,
        second: None,
        outs: None,
        verdict: Verdict::Unfit,
    },
    Example {
        number: 8,
        bias: Bias::Steady(40),
        printed_meter: 800,
        printed_ratio: 15,
        meter: 80,
        // printed 53.33
        reference: 53,
        // printed 4.7; it is 4.7323
        tolerance: 473,
        first: DOMINANT_FIT_AT_15,
        second: None,
        outs: None,
        verdict: Verdict::Fit,
    },
    Example {
        number: 9,
        bias: FOUR_PULSES,
        printed_meter: 225,
        printed_ratio: 50,
        // printed 22.5 and 4.5, which lie between these and the next
        meter: 22,
        reference: 4,
        tolerance: 197,
        first: PULSED_UNFIT_AT_19,
        second: Some((197, FIT_AT_15)),
        outs: None,
        verdict: Verdict::Fit,
    },
    Example {
        number: 9,
        bias: FOUR_PULSES,
        printed_meter: 225,
        printed_ratio: 50,
        meter: 23,
        reference: 5,
        tolerance: 197,
        first: PULSED_UNFIT_AT_19,
        second: Some((197, FIT_AT_15)),
        outs: None,
        verdict: Verdict::Fit,
    },
    Example {
        number: 10,
        bias: ONE_PULSE,
        printed_meter: 210,
        printed_ratio: 50,
        meter: 21,
        // printed 4.2
        reference: 4,
        tolerance: 184,
        first: PULSED_FIT_AT_24,
        second: Some((184, FIT_AT_15)),
        outs: None,
        verdict: Verdict::Fit,
    },
    Example {
        number: 11,
        bias: Bias::Steady(80),
        printed_meter: 955,
        printed_ratio: 50,
        // printed 95.5 and 19.1; with E = 19 no P gives the printed first attempt
        meter: 96,
        reference: 20,
        tolerance: 838,
        first: DOMINANT_UNFIT_AT_16,
        second: Some((802, DOMINANT_UNFIT_AT_7)),
        outs: None,
        verdict: Verdict::Unfit,
    },
    Example {
        number: 12,
        bias: Bias::Steady(100),
        printed_meter: 1_200,
        printed_ratio: 50,
        meter: 120,
        reference: 24,
        tolerance: 1_053,
        first: DOMINANT_FIT_AT_15,
        second: None,
        outs: None,
        verdict: Verdict::Fit,
    },
    Example {
        number: 13,
        bias: JUMP,
        printed_meter: 850,
        printed_ratio: 50,
        meter: 85,
        reference: 17,
        tolerance: 746,
        first: FIT_AT_40,
        second: None,
        outs: None,
        verdict: Verdict::Fit,
    },
    Example {
        number: 14,
        bias: JUMP,
        printed_meter: 600,
        printed_ratio: 50,
        meter: 60,
        reference: 12,
        // printed 5.3; it is 5.26476
        tolerance: 526,
        first: UNFIT_AT_7,
        second: None,
        outs: None,
        verdict: Verdict::Unfit,
    },
];

#[test]
fn the_examples_of_normal_control(rt: HostRuntime) -> Result<(), Fail> {
    for example in TABLE_4 {
        example.run(&rt, Truncated::standard(Line::Normal))?;
    }
    Ok(())
}

// 1.82 x (1 - 0.6127 / 5) is 1.597: an error of 1.6 is out, and the attempt ends at 4, as it does with the nearest whole
// tenths. The printed 13 observations come of a tolerance of 1.6 or a little more. The meter is unfit in either way.
const EXAMPLE_2_UNROUNDED: Example = Example {
    number: 2,
    bias: Bias::Steady(13),
    printed_meter: 182,
    printed_ratio: 50,
    meter: 18,
    reference: 4,
    tolerance: 160,
    first: UNFIT_AT_4,
    second: None,
    outs: None,
    verdict: Verdict::Unfit,
};

#[test]
fn example_2_with_its_tolerance_unrounded(rt: HostRuntime) -> Result<(), Fail> {
    EXAMPLE_2_UNROUNDED.run(&rt, Truncated::standard(Line::Normal))
}
