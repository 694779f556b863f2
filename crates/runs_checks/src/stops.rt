// One list under both stop rules. A three-step main plan keeps the lists short: codes of 0 at the signal 0 are fit at the
// third observation, a code of 100 is unfit at the first. Quantity control: N = 1 is unfit; 5, 0, -5 have S = 0 and are fit.
use crate::start::ready;
use method::{ThreeStep, Verdict};
use runs::{Audit, Call, Outcome, audit};
use std::test::Fail;

const OPEN: Call = Call::Open {
    signal: 0,
    meter: 100,
    reference: 20,
    agreement: 1,
};

fn audited(points: i32, calls: &[Call]) -> Result<Audit, Fail> {
    let mut scratch = [0u8; 15];
    let first = ready()?;
    let second = ready()?;
    Ok(audit(
        first,
        second,
        points,
        1,
        ThreeStep,
        ThreeStep,
        calls,
        &mut scratch,
        0,
    )?)
}

// None where it has not ended.
fn state(outcome: Outcome) -> Option<Verdict> {
    outcome.certificate.ok().map(|written| written.verdict)
}

#[test]
fn a_fit_point_ends_both_fit(rt: HostRuntime) -> Result<(), Fail> {
    let zero = Call::Code(0);
    let both = audited(
        1,
        &[
            OPEN,
            Call::Late,
            Call::Level,
            zero,
            zero,
            zero,
            zero,
            Call::Close(0),
        ],
    )?;
    assert_eq!(rt; (both.first_unfit.codes, both.all_points.codes), (3, 3));
    assert_eq!(rt;
        (state(both.first_unfit), state(both.all_points)),
        (Some(Verdict::Fit), Some(Verdict::Fit))
    );
    Ok(())
}

#[test]
fn an_unfit_point_ends_both_unfit(rt: HostRuntime) -> Result<(), Fail> {
    let both = audited(1, &[OPEN, Call::Late, Call::Code(100), Call::Close(0)])?;
    assert_eq!(rt; (both.first_unfit.codes, both.all_points.codes), (1, 1));
    assert_eq!(rt;
        (state(both.first_unfit), state(both.all_points)),
        (Some(Verdict::Unfit), Some(Verdict::Unfit))
    );
    Ok(())
}

// The second point's codes are refused under rule 1, which ended at the first.
#[test]
fn a_list_that_ends_only_rule_1(rt: HostRuntime) -> Result<(), Fail> {
    let both = audited(
        3,
        &[
            OPEN,
            Call::Late,
            Call::Code(100),
            Call::Close(0),
            OPEN,
            Call::Code(7),
        ],
    )?;
    assert_eq!(rt; (both.first_unfit.codes, both.all_points.codes), (1, 2));
    assert_eq!(rt;
        (state(both.first_unfit), state(both.all_points)),
        (Some(Verdict::Unfit), None)
    );
    Ok(())
}

#[test]
fn an_empty_list_ends_neither(rt: HostRuntime) -> Result<(), Fail> {
    let both = audited(1, &[])?;
    assert_eq!(rt; (both.first_unfit.codes, both.all_points.codes), (0, 0));
    assert_eq!(rt;
        (state(both.first_unfit), state(both.all_points)),
        (None, None)
    );
    Ok(())
}
