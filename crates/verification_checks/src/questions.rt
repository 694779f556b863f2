// Every question of every call in every phase.
use crate::drive::{Bench, begin, feed, number, open_settled};
use journal::Signal;
use std::test::Fail;
use verification::{Check, Inspection, Orders};

#[derive(Clone, Copy)]
enum Reached {
    Waiting,
    Settling,
    Observing,
    Decided,
    Ended,
}

fn brought_to(reached: Reached) -> Result<Bench, Fail> {
    let mut journal = [0u8; 15];
    let mut bench = begin(1, 1, 2)?;
    match reached {
        Reached::Waiting => {}
        Reached::Settling => bench.open(0, 100, 20, 1)?,
        Reached::Observing => open_settled(&mut bench, 0)?,
        Reached::Decided => {
            open_settled(&mut bench, 0)?;
            feed(&mut bench, 0, 15)?;
        }
        Reached::Ended => {
            open_settled(&mut bench, 0)?;
            feed(&mut bench, 0, 15)?;
            bench.close(&mut journal, 0)?;
        }
    }
    Ok(bench)
}

// The numbers of: open, level, a code, an illegal code, late, close, close with no room; 0 is accepted.
fn asked(reached: Reached) -> Result<[u8; 7], Fail> {
    let mut journal = [0u8; 15];
    Ok([
        number(brought_to(reached)?.open(0, 100, 20, 1)),
        number(brought_to(reached)?.level()),
        number(brought_to(reached)?.code(1_999_999)),
        number(brought_to(reached)?.code(-2_000_000)),
        number(brought_to(reached)?.late()),
        number(brought_to(reached)?.close(&mut journal, 0)),
        number(brought_to(reached)?.close(&mut journal, 1)),
    ])
}

#[test]
fn each_call_asks_in_its_order(rt: HostRuntime) -> Result<(), Fail> {
    assert_eq!(rt; asked(Reached::Waiting)?, [0, 14, 14, 14, 14, 14, 14]);
    assert_eq!(rt; asked(Reached::Settling)?, [9, 0, 0, 16, 0, 18, 18]);
    assert_eq!(rt; asked(Reached::Observing)?, [9, 0, 0, 16, 17, 18, 18]);
    assert_eq!(rt; asked(Reached::Decided)?, [9, 15, 15, 15, 17, 0, 19]);
    assert_eq!(rt; asked(Reached::Ended)?, [8, 8, 8, 8, 8, 8, 8]);
    Ok(())
}

// The first number that is out of its range is named.
#[test]
fn opening_asks_its_ranges_in_order(rt: HostRuntime) -> Result<(), Fail> {
    let expected = [
        (20_000_000, 1_000, 1_000, 9, 0),
        (-20_000_000, 1, 0, 0, 0),
        (20_000_001, 0, -1, 10, 10),
        (-20_000_001, 1, 0, 0, 10),
        (0, 0, -1, 10, 11),
        (0, 1_001, 0, 0, 11),
        (0, 100, 101, 10, 12),
        (0, 100, -1, 0, 12),
        (0, 100, 100, 10, 13),
        (0, 100, 100, -1, 13),
    ];
    for (signal, meter, reference, agreement, question) in expected {
        let mut bench = begin(1, 1, 2)?;
        assert_eq!(rt;
            number(bench.open(signal, meter, reference, agreement)),
            question
        );
    }
    Ok(())
}

#[test]
fn a_refused_closing_leaves_every_byte(rt: HostRuntime) -> Result<(), Fail> {
    let mut journal = [0xAAu8; 15];
    let mut bench = brought_to(Reached::Decided)?;
    assert_eq!(rt; number(bench.close(&mut journal, 1)), 19);
    assert_eq!(rt;
        number(bench.close(&mut journal, 18_446_744_073_709_551_615)),
        19
    );
    assert!(rt; journal == [0xAAu8; 15]);
    assert_eq!(rt; number(bench.close(&mut journal, 0)), 0);
    Ok(())
}

#[test]
fn orders_ask_in_order(rt: HostRuntime) {
    let expected = [
        (0, 0, 0, 1),
        (1_000, 1, 1, 1),
        (1, 0, 0, 2),
        (999, 3, 1, 2),
        (1, 1, 0, 3),
        (1, 2, 3, 3),
        (999, 2, 2, 0),
    ];
    for (points, control, rule, question) in expected {
        assert_eq!(rt; number(Orders::new(points, control, rule)), question);
    }
}

// 0x48 is the notice of a failed trial.
#[test]
fn a_failed_signal_ends_in_its_notice(rt: HostRuntime) -> Result<(), Fail> {
    let mut journal = [0xAAu8; 2];
    let trial = Inspection::begin().report(Check::Passed)?;
    let notice = trial.report(Check::Failed).err().ok_or("trial")?;
    assert_eq!(rt; notice.failed, Signal::Trial);
    assert_eq!(rt; number(notice.write(&mut journal, 2)), 19);
    assert_eq!(rt; notice.write(&mut journal, 1)?, 1);
    assert!(rt; journal == [0xAA, 0x48]);
    Ok(())
}
