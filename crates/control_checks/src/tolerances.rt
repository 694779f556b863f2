// Permitted errors and tolerances.
use crate::tables::{patient, permitted};
use control::{Distribution, Permitted, Tolerance};
use method::{Question, ThreeStep};
use std::test::Fail;

fn refusal(meter: i32, reference: i32) -> Option<Question> {
    Permitted::new(meter, reference).err()
}

#[test]
fn permitted_errors_are_asked_in_order(rt: HostRuntime) {
    assert_eq!(rt; refusal(1, 0), None);
    assert_eq!(rt; refusal(1_000, 1_000), None);
    assert_eq!(rt; refusal(0, 0), Some(Question::MeterErrorInRange));
    assert_eq!(rt; refusal(1_001, 0), Some(Question::MeterErrorInRange));
    assert_eq!(rt; refusal(i32::MIN, -1), Some(Question::MeterErrorInRange));
    assert_eq!(rt; refusal(5, 6), Some(Question::ReferenceErrorInRange));
    assert_eq!(rt; refusal(5, -1), Some(Question::ReferenceErrorInRange));
    assert_eq!(rt; refusal(5, i32::MAX), Some(Question::ReferenceErrorInRange));
}

#[test]
fn the_narrowest_tolerance_is_one(rt: HostRuntime) -> Result<(), Fail> {
    // 10,000 x 1 - 9,999 x 1
    let narrow = Tolerance::new(permitted(1, 1)?, &patient()?, Distribution::Trapezoid);
    assert_eq!(rt; narrow.width(), 1);
    // the uniform coefficient is 0
    let wider = Tolerance::new(permitted(1, 1)?, &patient()?, Distribution::Uniform);
    assert_eq!(rt; wider.width(), 10_000);
    Ok(())
}

#[test]
fn the_widest_tolerance_is_ten_million(rt: HostRuntime) -> Result<(), Fail> {
    // 10,000 x 1,000 - 8,000 x 0
    let wide = Tolerance::new(permitted(1_000, 0)?, &ThreeStep, Distribution::Trapezoid);
    assert_eq!(rt; wide.width(), 10_000_000);
    // 10,000 x 1,000 - 8,000 x 1,000
    let narrow = Tolerance::new(permitted(1_000, 1_000)?, &ThreeStep, Distribution::Uniform);
    assert_eq!(rt; narrow.width(), 2_000_000);
    Ok(())
}
