// Table 5: three-step control, as the second point under reduced control. It follows a main attempt with dominance.
use crate::drive::{Bench, REDUCED, begin, closed, observe};
use crate::meter::{Bias, code_at, error_at};
use journal::{FirstAttempt, Record, SequenceFields, ThreeStepFields};
use method::{Line, Plan, ThreeStep, Truncated, Verdict};
use std::process::Abort;
use std::test::Fail;

// The bias, the permitted errors and the printed errors are in tenths; the printed tolerance is D.
#[derive(Clone, Copy)]
struct ShortExample {
    bias: i16,
    meter: i32,
    reference: i32,
    tolerance: i32,
    errors: [i64; 3],
}

// Unfit: 1.5 is not below 1.68 - 0.5.
const EXAMPLE_1: ShortExample = ShortExample {
    bias: 13,
    meter: 20,
    reference: 4,
    tolerance: 168_000,
    errors: [15, 10, 15],
};

const EXAMPLE_2: ShortExample = ShortExample {
    bias: 40,
    meter: 60,
    reference: 12,
    tolerance: 504_000,
    errors: [45, 40, 45],
};

const EXAMPLE_3: ShortExample = ShortExample {
    bias: 13,
    meter: 30,
    reference: 6,
    tolerance: 252_000,
    errors: [15, 10, 15],
};

#[test]
fn the_meter_shows_table_5(rt: HostRuntime) -> Result<(), Fail> {
    for example in [EXAMPLE_1, EXAMPLE_2, EXAMPLE_3] {
        for (i, error) in (1..4).zip(&example.errors) {
            let level = ThreeStep.offset(i);
            assert_eq!(rt; error_at(level, i32::from(example.bias))?, *error);
        }
    }
    Ok(())
}

// Example 5 of table 4 is fit with dominance, so the point that is opened behind it begins short.
fn second_point(rt: &impl Abort, example: ShortExample) -> Result<Bench, Fail> {
    let mut bench = begin(2, REDUCED, Truncated::standard(Line::Normal))?;
    bench.open(0, 52, 10, 0)?;
    assert_eq!(rt; observe(&mut bench, Bias::Steady(40))?.last, Some(15));
    closed(&mut bench)?;
    bench.open(0, example.meter, example.reference, 0)?;
    assert_eq!(rt; bench.level()?.soonest, Some(3));
    Ok(bench)
}

#[test]
fn fit_examples_of_three_step_control(rt: HostRuntime) -> Result<(), Fail> {
    for (example, sum) in [(EXAMPLE_2, 130), (EXAMPLE_3, 40)] {
        let mut bench = second_point(&rt, example)?;
        let course = observe(&mut bench, Bias::Steady(example.bias))?;
        assert_eq!(rt; (course.earlier, course.last), (None, Some(3)));
        assert_eq!(rt; course.verdict, Verdict::Fit);
        let record = Record::ThreeStep(ThreeStepFields {
            point: 2,
            settling_codes: 3,
            tolerance: example.tolerance,
            sum,
        });
        assert_eq!(rt; closed(&mut bench)?, record);
    }
    Ok(())
}

// The first error is out, which ends the short attempt: the two others are not observed, and normal control begins.
#[test]
fn an_unfit_three_step_attempt_is_followed_by_normal_control(rt: HostRuntime) -> Result<(), Fail> {
    let mut bench = second_point(&rt, EXAMPLE_1)?;
    for _ in 0..4 {
        let level = bench.level()?;
        let code = code_at(level.tenths, i32::from(EXAMPLE_1.bias))?;
        assert_eq!(rt; bench.code(code)?, None);
    }
    let level = bench.level()?;
    assert_eq!(rt;
        (level.tenths, level.observation, level.soonest),
        (-9, Some(1), Some(15))
    );
    Ok(())
}

fn main_record(bench: &mut Bench) -> Result<SequenceFields, Fail> {
    match closed(bench)? {
        Record::Sequence(fields) => Ok(fields),
        _ => Err(Fail::new("another record")),
    }
}

// The print says that normal control then finds the meter fit, by example 1 of table 4. There the tolerance is that of the
// trapezoid distribution, 1.75; behind a point with dominance it is still that of the uniform one, 1.68, and 1.7 is out.
#[test]
fn example_1_is_unfit_under_the_uniform_distribution(rt: HostRuntime) -> Result<(), Fail> {
    let mut bench = second_point(&rt, EXAMPLE_1)?;
    let course = observe(&mut bench, Bias::Steady(EXAMPLE_1.bias))?;
    assert_eq!(rt; (course.earlier, course.last), (Some(1), Some(13)));
    let fields = main_record(&mut bench)?;
    assert_eq!(rt; fields.first_attempt, FirstAttempt::ShortUnfit);
    assert_eq!(rt; (fields.outs, fields.tolerance), (4, EXAMPLE_1.tolerance));
    assert_eq!(rt; fields.verdict, Verdict::Unfit);
    Ok(())
}

// As a first point, under the trapezoid distribution, it is fit as the print says.
#[test]
fn example_1_is_fit_under_the_trapezoid_distribution(rt: HostRuntime) -> Result<(), Fail> {
    let mut bench = begin(1, REDUCED, Truncated::standard(Line::Normal))?;
    bench.open(0, EXAMPLE_1.meter, EXAMPLE_1.reference, 0)?;
    let course = observe(&mut bench, Bias::Steady(EXAMPLE_1.bias))?;
    assert_eq!(rt; (course.earlier, course.last), (None, Some(40)));
    let fields = main_record(&mut bench)?;
    assert_eq!(rt; (fields.outs, fields.tolerance), (4, 175_492));
    assert_eq!(rt; fields.verdict, Verdict::Fit);
    Ok(())
}
