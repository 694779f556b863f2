// The two stop rules.
use crate::drive::{Bench, begin, feed, number, open_settled};
use method::Verdict;
use std::test::Fail;

fn close_at(bench: &mut Bench, code: i32, times: u32) -> Result<Verdict, Fail> {
    let mut journal = [0u8; 15];
    open_settled(bench, 0)?;
    feed(bench, code, times)?;
    Ok(bench.close(&mut journal, 0)?.verdict)
}

#[test]
fn rule_1_ends_when_an_unfit_point_is_closed(rt: HostRuntime) -> Result<(), Fail> {
    let mut bench = begin(3, 1, 1)?;
    assert_eq!(rt; close_at(&mut bench, 0, 15)?, Verdict::Fit);
    assert_eq!(rt; number(bench.level()), 14);
    assert_eq!(rt; close_at(&mut bench, 100, 3)?, Verdict::Unfit);
    assert_eq!(rt; number(bench.open(0, 100, 20, 1)), 8);
    Ok(())
}

#[test]
fn rule_2_goes_through_all(rt: HostRuntime) -> Result<(), Fail> {
    let mut bench = begin(2, 1, 2)?;
    assert_eq!(rt; close_at(&mut bench, 100, 3)?, Verdict::Unfit);
    assert_eq!(rt; close_at(&mut bench, 0, 15)?, Verdict::Fit);
    assert_eq!(rt; number(bench.open(0, 100, 20, 1)), 8);
    Ok(())
}
