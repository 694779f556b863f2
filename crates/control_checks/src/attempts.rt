// Attempts, sequences and what lies ahead of them.
use crate::tables::{hasty, patient, permitted};
use control::{Attempt, Distribution, Finished, Tolerance, sequence, sequence_pair, soonest_fit};
use method::{Line, ThreeStep, Truncated};
use std::ops::ControlFlow;
use std::test::Fail;

fn finished(step: ControlFlow<Finished, Attempt>) -> Result<Finished, Fail> {
    Ok(step.break_value().ok_or("the attempt goes on")?)
}

fn going_on(step: ControlFlow<Finished, Attempt>) -> Result<Attempt, Fail> {
    Ok(step.continue_value().ok_or("ended")?)
}

#[test]
fn the_largest_errors_are_wild(rt: HostRuntime) -> Result<(), Fail> {
    let plan = patient()?;
    let tolerance = Tolerance::new(permitted(1_000, 0)?, &plan, Distribution::Uniform);
    let one = going_on(Attempt::new(tolerance).observe(&plan, i32::MIN))?;
    assert_eq!(rt; one.tally().sum, -2_000);
    assert_eq!(rt; one.tally().squares, 4_000_000);
    let two = going_on(one.observe(&plan, i32::MAX))?;
    let tally = two.tally();
    assert_eq!(rt; tally.observations, 2);
    assert_eq!(rt; tally.outs, 2);
    assert_eq!(rt; tally.sum, 0);
    assert_eq!(rt; tally.squares, 8_000_000);
    assert!(rt; tally.wild);
    Ok(())
}

#[test]
fn two_thousand_tenths_are_not_wild(rt: HostRuntime) -> Result<(), Fail> {
    let plan = patient()?;
    let tolerance = Tolerance::new(permitted(1_000, 0)?, &plan, Distribution::Uniform);
    let all = finished(Attempt::over(&plan, tolerance, &[2_000; 48]))?;
    assert_eq!(rt; all.tally().observations, 48);
    assert_eq!(rt; all.tally().outs, 48);
    assert_eq!(rt; all.tally().sum, 96_000);
    assert_eq!(rt; all.tally().squares, 192_000_000);
    assert!(rt; !all.tally().wild);
    // the cut number is 48
    assert!(rt; all.verdict().is_fit());
    // W = 48 x 10,000,000 - 10,000 x 96,000 is negative
    assert!(rt; !all.quantity().is_fit());
    // V = 48 x 192,000,000 - 96,000 x 96,000 = 0
    assert!(rt; all.dominance());
    let wild = finished(Attempt::over(&plan, tolerance, &[-2_001; 48]))?;
    assert_eq!(rt; wild.tally().sum, -96_000);
    assert_eq!(rt; wild.tally().squares, 192_000_000);
    assert!(rt; wild.tally().wild);
    assert!(rt; !wild.quantity().is_fit());
    assert!(rt; !wild.dominance());
    Ok(())
}

#[test]
fn one_observation_may_end_it(rt: HostRuntime) -> Result<(), Fail> {
    let plan = hasty()?;
    let tolerance = Tolerance::new(permitted(1, 0)?, &plan, Distribution::Uniform);
    let level = finished(Attempt::new(tolerance).observe(&plan, 0))?;
    assert_eq!(rt; level.tally().observations, 1);
    assert!(rt; level.verdict().is_fit());
    assert!(rt; !level.quantity().is_fit());
    assert!(rt; !level.dominance());
    // 10,000 x 1 is in tolerance and 10,000 x 2 is not, of 10,000
    let inside = finished(Attempt::new(tolerance).observe(&plan, -1))?;
    assert!(rt; inside.verdict().is_fit());
    let outside = finished(Attempt::new(tolerance).observe(&plan, 2))?;
    assert!(rt; !outside.verdict().is_fit());
    Ok(())
}

#[test]
fn a_sequence_ends_first_where_its_plan_ends_it(rt: HostRuntime) -> Result<(), Fail> {
    let errors = permitted(100, 20)?;
    let plan = Truncated::standard(Line::Strengthened);
    let end = sequence(&plan, Distribution::Trapezoid, errors, &[82; 48]).ok_or("goes on")?;
    assert!(rt; end.verdict.is_fit());
    assert_eq!(rt; end.at, 25);
    let out = sequence(&plan, Distribution::Trapezoid, errors, &[83; 48]).ok_or("goes on")?;
    assert!(rt; !out.verdict.is_fit());
    assert_eq!(rt; out.at, 2);
    assert!(rt; sequence(&plan, Distribution::Trapezoid, errors, &[82; 24]).is_none());
    // half a step under a strict inequality: 780,000 + 50,001 is within 840,000, and 790,000 + 50,001 is not
    let short = sequence(&ThreeStep, Distribution::Uniform, errors, &[78; 3]).ok_or("goes on")?;
    assert!(rt; short.verdict.is_fit());
    assert_eq!(rt; short.at, 3);
    let off = sequence(&ThreeStep, Distribution::Uniform, errors, &[0, 79, 0]).ok_or("goes on")?;
    assert!(rt; !off.verdict.is_fit());
    assert_eq!(rt; off.at, 2);
    Ok(())
}

#[test]
fn smaller_errors_do_no_worse(rt: HostRuntime) -> Result<(), Fail> {
    let plan = Truncated::standard(Line::Normal);
    let narrow = permitted(100, 20)?;
    let wide = permitted(100, 0)?;
    let pair = sequence_pair(
        &plan,
        Distribution::Trapezoid,
        narrow,
        &[90; 40],
        wide,
        &[-89; 40],
    );
    let first = pair.first.ok_or("goes on")?;
    let second = pair.second.ok_or("goes on")?;
    assert!(rt; !first.verdict.is_fit());
    assert_eq!(rt; first.at, 3);
    assert!(rt; second.verdict.is_fit());
    assert_eq!(rt; second.at, 15);
    Ok(())
}

#[test]
fn the_soonest_looks_ahead_to_the_cut(rt: HostRuntime) {
    let strengthened = Truncated::standard(Line::Strengthened);
    let normal = Truncated::standard(Line::Normal);
    assert_eq!(rt; soonest_fit(&strengthened, 0, 0), Some(25));
    assert_eq!(rt; soonest_fit(&normal, 0, 0), Some(15));
    assert_eq!(rt; soonest_fit(&ThreeStep, 0, 0), Some(3));
    assert_eq!(rt; soonest_fit(&ThreeStep, 0, 1), None);
    // 612 i - 14,925 reaches 10,000 at 41, and 20,000 only behind the cut
    assert_eq!(rt; soonest_fit(&strengthened, 25, 1), Some(41));
    assert_eq!(rt; soonest_fit(&strengthened, 2, 2), Some(44));
    assert_eq!(rt; soonest_fit(&strengthened, 2, 3), None);
    // 1,103 i - 16,223 reaches 20,000 at 33; the cut number is 4
    assert_eq!(rt; soonest_fit(&normal, 20, 2), Some(33));
    assert_eq!(rt; soonest_fit(&normal, 39, 4), Some(40));
    assert_eq!(rt; soonest_fit(&normal, 39, 5), None);
    assert_eq!(rt; soonest_fit(&normal, 40, 0), None);
    assert_eq!(rt; soonest_fit(&normal, u32::MAX, 0), None);
    assert_eq!(rt; soonest_fit(&normal, 0, u32::MAX), None);
    assert_eq!(rt; soonest_fit(&Line::Normal, 47, 48), Some(48));
}
