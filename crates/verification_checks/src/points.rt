// Points under full control, at numbers worked by hand.
use crate::drive::{begin, feed, first_record, open_settled};
use journal::{FirstAttempt, Quantity, Record, SequenceFields};
use method::Verdict;
use std::process::Abort;
use std::test::Fail;

// At observation i up to 20 the offset is i - 10, so a code of 0 at the signal 0 has the error 10 - i:
// 9, 8, .. -5 over 15 observations, with S = 30 and Q = 340. D is 1,000,000 - 6,127 x 20 = 877,460.
const FIT: SequenceFields = SequenceFields {
    point: 1,
    first_attempt: FirstAttempt::Absent,
    observations: 15,
    outs: 0,
    sequence: Verdict::Fit,
    quantity: Quantity::Fit,
    wild: false,
    dominance: false,
    verdict: Verdict::Fit,
    settling_codes: 3,
    tolerance: 877_460,
    sum: 30,
    squares: 340,
};

#[test]
fn fit_at_once(rt: HostRuntime) -> Result<(), Fail> {
    let mut journal = [0xAAu8; 20];
    let mut bench = begin(2, 1, 2)?;
    open_settled(&mut bench, 0)?;
    assert_eq!(rt; feed(&mut bench, 0, 14)?, None);
    assert_eq!(rt; feed(&mut bench, 0, 1)?, Some(Verdict::Fit));
    let closed = bench.close(&mut journal, 2)?;
    assert_eq!(rt; (closed.verdict, closed.length), (Verdict::Fit, 15));
    assert_eq!(rt; first_record(&journal[2..17])?, Record::Sequence(FIT));
    assert!(rt; journal[0] == 0xAA && journal[1] == 0xAA && journal[17] == 0xAA);
    Ok(())
}

// Three errors of 1,009, 1,008 and 1,007 tenths are out: unfit at the third, and the mean is beyond the tolerance.
// S = 3,024, Q = 3,048,194 and V = 6, so the systematic part dominates: 3,024 x 3,024 x 2 > 64 x 3 x 6.
#[test]
fn unfit_at_once(rt: HostRuntime) -> Result<(), Fail> {
    let mut journal = [0u8; 15];
    let mut bench = begin(1, 1, 2)?;
    open_settled(&mut bench, 0)?;
    assert_eq!(rt; feed(&mut bench, 100, 2)?, None);
    assert_eq!(rt; feed(&mut bench, 100, 1)?, Some(Verdict::Unfit));
    bench.close(&mut journal, 0)?;
    let unfit = SequenceFields {
        observations: 3,
        outs: 3,
        sequence: Verdict::Unfit,
        quantity: Quantity::Unfit,
        dominance: true,
        verdict: Verdict::Unfit,
        sum: 3_024,
        squares: 3_048_194,
        ..FIT
    };
    assert_eq!(rt; first_record(&journal)?, Record::Sequence(unfit));
    Ok(())
}

// At the signal 3, codes of 8 and -8 in turn have the errors 86, -75, 84, -77, .. 72: all in tolerance, so the sequence is
// fit at 15. S = 65, Q = 96,135, V = 1,437,800, W = 12,511,900: 160,000 x 105 x 105 x V is 2,536,279,200,000,000 and
// W x W x 14 only 2,191,666,982,540,000, so quantity control is unfit, and a second attempt follows.
fn differing(rt: &impl Abort, bench: &mut crate::drive::Bench) -> Result<(), Fail> {
    open_settled(bench, 3)?;
    for _ in 0..7 {
        assert_eq!(rt; feed(bench, 8, 1)?, None);
        assert_eq!(rt; feed(bench, -8, 1)?, None);
    }
    assert_eq!(rt; feed(bench, 8, 1)?, None);
    Ok(())
}

// Codes of 0 at the signal 3 have the errors 7 - i: S = -15, Q = 295. The second attempt does not settle again.
#[test]
fn differing_and_then_fit(rt: HostRuntime) -> Result<(), Fail> {
    let mut journal = [0u8; 15];
    let mut bench = begin(1, 1, 2)?;
    differing(&rt, &mut bench)?;
    let level = bench.level()?;
    assert_eq!(rt;
        (level.tenths, level.observation, level.soonest),
        (3 - 9, Some(1), Some(15))
    );
    assert_eq!(rt; feed(&mut bench, 0, 15)?, Some(Verdict::Fit));
    bench.close(&mut journal, 0)?;
    let fit = SequenceFields {
        first_attempt: FirstAttempt::SequenceAlone,
        sum: -15,
        squares: 295,
        ..FIT
    };
    assert_eq!(rt; first_record(&journal)?, Record::Sequence(fit));
    Ok(())
}

#[test]
fn differing_and_then_unfit(rt: HostRuntime) -> Result<(), Fail> {
    let mut bench = begin(1, 1, 2)?;
    differing(&rt, &mut bench)?;
    assert_eq!(rt; feed(&mut bench, 100, 2)?, None);
    assert_eq!(rt; feed(&mut bench, 100, 1)?, Some(Verdict::Unfit));
    Ok(())
}

// While settling the level is the main signal; after it, shifted by the offset of the coming observation.
#[test]
fn levels_follow_the_plan(rt: HostRuntime) -> Result<(), Fail> {
    let mut bench = begin(1, 1, 2)?;
    bench.open(1_000, 100, 20, 1)?;
    let level = bench.level()?;
    assert_eq!(rt;
        (level.tenths, level.observation, level.soonest),
        (1_000, None, Some(15))
    );
    feed(&mut bench, 100, 3)?;
    let level = bench.level()?;
    assert_eq!(rt;
        (level.tenths, level.observation, level.soonest),
        (991, Some(1), Some(15))
    );
    feed(&mut bench, 100, 4)?;
    let level = bench.level()?;
    assert_eq!(rt; (level.tenths, level.observation), (995, Some(5)));
    Ok(())
}

// 10, 11, 12 differ by 2 from end to end, so only the fourth code settles within 1.
#[test]
fn settled_by_agreement(rt: HostRuntime) -> Result<(), Fail> {
    let mut journal = [0u8; 15];
    let mut bench = begin(1, 1, 2)?;
    bench.open(0, 100, 20, 1)?;
    for code in [10, 11, 12] {
        bench.code(code)?;
        assert_eq!(rt; bench.level()?.observation, None);
    }
    bench.code(12)?;
    assert_eq!(rt; bench.level()?.observation, Some(1));
    feed(&mut bench, 0, 15)?;
    bench.close(&mut journal, 0)?;
    assert_eq!(rt;
        first_record(&journal)?,
        Record::Sequence(SequenceFields {
            settling_codes: 4,
            ..FIT
        })
    );
    Ok(())
}

#[test]
fn settled_late_at_once(rt: HostRuntime) -> Result<(), Fail> {
    let mut journal = [0u8; 15];
    let mut bench = begin(1, 1, 2)?;
    bench.open(0, 100, 20, 1)?;
    assert_eq!(rt; bench.late()?, None);
    feed(&mut bench, 0, 15)?;
    bench.close(&mut journal, 0)?;
    assert_eq!(rt;
        first_record(&journal)?,
        Record::Sequence(SequenceFields {
            settling_codes: 0,
            ..FIT
        })
    );
    Ok(())
}

// Codes of 0 and 9 in turn never agree within 1.
#[test]
fn settled_by_the_200th_code(rt: HostRuntime) -> Result<(), Fail> {
    let mut journal = [0u8; 15];
    let mut bench = begin(1, 1, 2)?;
    bench.open(0, 100, 20, 1)?;
    for _ in 0..99 {
        bench.code(0)?;
        bench.code(9)?;
    }
    bench.code(0)?;
    assert_eq!(rt; bench.level()?.observation, None);
    bench.code(9)?;
    assert_eq!(rt; bench.level()?.observation, Some(1));
    feed(&mut bench, 0, 15)?;
    bench.close(&mut journal, 0)?;
    assert_eq!(rt;
        first_record(&journal)?,
        Record::Sequence(SequenceFields {
            settling_codes: 200,
            ..FIT
        })
    );
    Ok(())
}
