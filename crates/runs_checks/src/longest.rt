// The most codes: 200 settling codes that never agree, and two attempts of 48 observations. Errors of 10,000 tenths are wild,
// so quantity control is unfit where the sequence is fit at the cut: the two differ, and a second attempt follows.
use crate::start::{ready, to_the_cut};
use journal::{CertificateFields, Reader, Record};
use method::{Tabled, Verdict};
use std::process::Abort;
use std::test::Fail;
use verification::{Orders, Verification};

fn settle(rt: &impl Abort, bench: &mut Verification<Tabled, Tabled>) -> Result<(), Fail> {
    for _ in 0..100 {
        assert_eq!(rt; bench.code(0)?, None);
        assert_eq!(rt; bench.code(100)?, None);
    }
    Ok(())
}

// One point with 296 codes.
fn longest_point(rt: &impl Abort, bench: &mut Verification<Tabled, Tabled>) -> Result<(), Fail> {
    let mut journal = [0u8; 15];
    bench.open(0, 100, 20, 1)?;
    settle(rt, bench)?;
    for _ in 0..95 {
        assert_eq!(rt; bench.code(1_000)?, None);
    }
    assert_eq!(rt; bench.code(1_000)?, Some(Verdict::Unfit));
    assert!(rt; bench.code(1_000).is_err());
    bench.close(&mut journal, 0)?;
    Ok(())
}

fn certificate(bench: Verification<Tabled, Tabled>) -> Result<CertificateFields, Fail> {
    let mut journal = [0u8; 8];
    bench.certify(&mut journal, 0).ok().ok_or("no certificate")?;
    let placed = Reader::new(&journal).next()?.ok_or("no record")?;
    match placed.record {
        Record::Certificate(fields) => Ok(fields),
        _ => Err(Fail::new("another record")),
    }
}

#[test]
fn a_point_takes_296_codes(rt: HostRuntime) -> Result<(), Fail> {
    let orders = Orders::new(1, 1, 1)?;
    let mut bench = ready()?.start(orders, to_the_cut()?, to_the_cut()?);
    longest_point(&rt, &mut bench)?;
    assert_eq!(rt; certificate(bench)?.codes_accepted, 296);
    Ok(())
}

#[test]
fn a_verification_takes_295_704_codes(rt: HostRuntime) -> Result<(), Fail> {
    let orders = Orders::new(999, 1, 2)?;
    let mut bench = ready()?.start(orders, to_the_cut()?, to_the_cut()?);
    for _ in 0..999 {
        longest_point(&rt, &mut bench)?;
    }
    let expected = CertificateFields {
        declared: 999,
        closed: 999,
        unfit: 999,
        verdict: Verdict::Unfit,
        codes_accepted: 295_704,
    };
    assert_eq!(rt; certificate(bench)?, expected);
    Ok(())
}
