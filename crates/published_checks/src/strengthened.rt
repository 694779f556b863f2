// Table 3: strengthened control.
use crate::example::{Attempt, Example};
use crate::meter::Bias;
use method::{Line, Truncated, Verdict};
use std::test::Fail;

const UNFIT_AT_4: Attempt = Attempt {
    observations: 4,
    sequence: Verdict::Unfit,
    quantity: Verdict::Unfit,
    dominance: false,
};

// Cut, with more outs than the cut number.
const UNFIT_AT_44: Attempt = Attempt {
    observations: 44,
    sequence: Verdict::Unfit,
    quantity: Verdict::Fit,
    dominance: false,
};

const FIT_AT_25: Attempt = Attempt {
    observations: 25,
    sequence: Verdict::Fit,
    quantity: Verdict::Fit,
    dominance: false,
};

const DOMINANT_FIT_AT_25: Attempt = Attempt {
    observations: 25,
    sequence: Verdict::Fit,
    quantity: Verdict::Fit,
    dominance: true,
};

const DOMINANT_UNFIT_AT_7: Attempt = Attempt {
    observations: 7,
    sequence: Verdict::Unfit,
    quantity: Verdict::Unfit,
    dominance: true,
};

// The sequence alone is unfit.
const DOMINANT_UNFIT_AT_38: Attempt = Attempt {
    observations: 38,
    sequence: Verdict::Unfit,
    quantity: Verdict::Fit,
    dominance: true,
};

const TABLE_3: [Example; 11] = [
    Example {
        number: 1,
        bias: Bias::Steady(13),
        printed_meter: 200,
        printed_ratio: 50,
        meter: 20,
        reference: 4,
        tolerance: 165,
        first: UNFIT_AT_4,
        second: None,
        outs: Some(2),
        verdict: Verdict::Unfit,
    },
    Example {
        number: 2,
        bias: Bias::Steady(13),
        printed_meter: 210,
        printed_ratio: 50,
        meter: 21,
        // printed 4.2
        reference: 4,
        tolerance: 173,
        first: UNFIT_AT_44,
        second: Some((173, UNFIT_AT_44)),
        outs: Some(4),
        verdict: Verdict::Unfit,
    },
    Example {
        number: 3,
        bias: Bias::Steady(13),
        printed_meter: 220,
        printed_ratio: 50,
        meter: 22,
        // printed 4.4
        reference: 4,
        tolerance: 181,
        first: FIT_AT_25,
        second: None,
        outs: None,
        verdict: Verdict::Fit,
    },
    Example {
        number: 4,
        bias: Bias::Steady(13),
        printed_meter: 450,
        printed_ratio: 15,
        meter: 45,
        reference: 30,
        // printed 1.86; it is 1.8675
        tolerance: 187,
        first: FIT_AT_25,
        second: None,
        outs: None,
        verdict: Verdict::Fit,
    },
    Example {
        number: 5,
        bias: Bias::Steady(40),
        printed_meter: 520,
        printed_ratio: 50,
        meter: 52,
        // printed 10.4
        reference: 10,
        tolerance: 429,
        first: DOMINANT_UNFIT_AT_7,
        second: None,
        outs: None,
        verdict: Verdict::Unfit,
    },
    Example {
        number: 6,
        bias: Bias::Steady(40),
        printed_meter: 540,
        printed_ratio: 50,
        meter: 54,
        // printed 10.8
        reference: 11,
        tolerance: 445,
        first: DOMINANT_UNFIT_AT_38,
        second: Some((434, DOMINANT_UNFIT_AT_7)),
        outs: None,
        verdict: Verdict::Unfit,
    },
    Example {
        number: 7,
        bias: Bias::Steady(40),
        printed_meter: 550,
        printed_ratio: 50,
        meter: 55,
        reference: 11,
        tolerance: 453,
        first: DOMINANT_FIT_AT_25,
        second: None,
        outs: None,
        verdict: Verdict::Fit,
    },
    Example {
        number: 8,
        bias: Bias::Steady(40),
        printed_meter: 810,
        printed_ratio: 20,
        meter: 81,
        // printed 40.5, which lies between this and the next
        reference: 40,
        tolerance: 455,
        first: DOMINANT_FIT_AT_25,
        second: None,
        outs: None,
        verdict: Verdict::Fit,
    },
    Example {
        number: 8,
        bias: Bias::Steady(40),
        printed_meter: 810,
        printed_ratio: 20,
        meter: 81,
        reference: 41,
        tolerance: 455,
        first: DOMINANT_FIT_AT_25,
        second: None,
        outs: None,
        verdict: Verdict::Fit,
    },
    Example {
        number: 9,
        bias: Bias::Steady(80),
        printed_meter: 1_050,
        printed_ratio: 50,
        meter: 105,
        reference: 21,
        tolerance: 866,
        first: DOMINANT_FIT_AT_25,
        second: None,
        outs: None,
        verdict: Verdict::Fit,
    },
    Example {
        number: 10,
        bias: Bias::Steady(100),
        printed_meter: 1_270,
        printed_ratio: 50,
        meter: 127,
        // printed 25.4; 25 would make D 10.506, and 10.5 is then in tolerance
        reference: 26,
        tolerance: 1_047,
        first: DOMINANT_UNFIT_AT_38,
        second: Some((1_021, DOMINANT_UNFIT_AT_7)),
        outs: None,
        verdict: Verdict::Unfit,
    },
];

#[test]
fn the_examples_of_strengthened_control(rt: HostRuntime) -> Result<(), Fail> {
    for example in TABLE_3 {
        example.run(&rt, Truncated::standard(Line::Strengthened))?;
    }
    Ok(())
}
