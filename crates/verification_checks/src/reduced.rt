// Points under reduced control, one after another.
use crate::drive::{Bench, begin, feed, first_record, open_settled};
use journal::{FirstAttempt, Quantity, Record, SequenceFields, ThreeStepFields};
use method::Verdict;
use std::process::Abort;
use std::test::Fail;

fn closed(bench: &mut Bench) -> Result<Record, Fail> {
    let mut journal = [0u8; 15];
    bench.close(&mut journal, 0)?;
    first_record(&journal)
}

// Codes of 5 at the signal 0 have the errors 60 - i: fit at 15 with S = 780 and Q = 40,840. V = 4,200, and
// 780 x 780 x 14 = 8,517,600 is more than 64 x 15 x 4,200 = 4,032,000: the systematic part dominates.
fn first_point(rt: &impl Abort, bench: &mut Bench) -> Result<(), Fail> {
    open_settled(bench, 0)?;
    assert_eq!(rt; feed(bench, 5, 15)?, Some(Verdict::Fit));
    let record = Record::Sequence(SequenceFields {
        point: 1,
        first_attempt: FirstAttempt::Absent,
        observations: 15,
        outs: 0,
        sequence: Verdict::Fit,
        quantity: Quantity::NotAsked,
        wild: false,
        dominance: true,
        verdict: Verdict::Fit,
        settling_codes: 3,
        tolerance: 877_460,
        sum: 780,
        squares: 40_840,
    });
    assert_eq!(rt; closed(bench)?, record);
    Ok(())
}

// Codes of 0 have the errors 5, 0 and -5 on the short plan. D is 1,000,000 - 8,000 x 20 = 840,000.
fn short_point(rt: &impl Abort, bench: &mut Bench) -> Result<(), Fail> {
    open_settled(bench, 0)?;
    assert_eq!(rt; bench.level()?.soonest, Some(3));
    assert_eq!(rt; feed(bench, 0, 2)?, None);
    assert_eq!(rt; feed(bench, 0, 1)?, Some(Verdict::Fit));
    let record = Record::ThreeStep(ThreeStepFields {
        point: 2,
        settling_codes: 3,
        tolerance: 840_000,
        sum: 0,
    });
    assert_eq!(rt; closed(bench)?, record);
    Ok(())
}

// A code of 100 is out at the first observation: the main attempt that follows still has the uniform coefficient, 8,000.
fn short_unfit_point(rt: &impl Abort, bench: &mut Bench) -> Result<(), Fail> {
    open_settled(bench, 0)?;
    assert_eq!(rt; feed(bench, 100, 1)?, None);
    assert_eq!(rt; feed(bench, 0, 14)?, None);
    assert_eq!(rt; feed(bench, 0, 1)?, Some(Verdict::Fit));
    let record = Record::Sequence(SequenceFields {
        point: 3,
        first_attempt: FirstAttempt::ShortUnfit,
        observations: 15,
        outs: 0,
        sequence: Verdict::Fit,
        quantity: Quantity::NotAsked,
        wild: false,
        dominance: false,
        verdict: Verdict::Fit,
        settling_codes: 3,
        tolerance: 840_000,
        sum: 30,
        squares: 340,
    });
    assert_eq!(rt; closed(bench)?, record);
    Ok(())
}

#[test]
fn main_short_short_unfit_and_main_again(rt: HostRuntime) -> Result<(), Fail> {
    let mut bench = begin(5, 2, 2)?;
    first_point(&rt, &mut bench)?;
    short_point(&rt, &mut bench)?;
    short_unfit_point(&rt, &mut bench)?;
    open_settled(&mut bench, 0)?;
    assert_eq!(rt; bench.level()?.soonest, Some(15));
    assert_eq!(rt; feed(&mut bench, 0, 15)?, Some(Verdict::Fit));
    Ok(())
}

// Its sequence alone decides: an unfit main point whose errors dominate is followed by a short one.
#[test]
fn dominance_leads_to_the_short_plan_whatever_the_verdict(rt: HostRuntime) -> Result<(), Fail> {
    let mut bench = begin(2, 2, 2)?;
    open_settled(&mut bench, 0)?;
    assert_eq!(rt; feed(&mut bench, 100, 3)?, Some(Verdict::Unfit));
    closed(&mut bench)?;
    open_settled(&mut bench, 0)?;
    assert_eq!(rt; bench.level()?.soonest, Some(3));
    Ok(())
}
