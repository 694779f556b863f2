// A manual stage that has passed, and plans for the tests.
use method::{Row, TableNumbers, Tabled};
use std::test::Fail;
use verification::{Inspection, Ready};

pub fn ready() -> Result<Ready, Fail> {
    Ok(Inspection::all_passed()?)
}

// A plan that accepts and rejects nothing before its cut of 48, and there accepts everything.
pub fn to_the_cut() -> Result<Tabled, Fail> {
    let row = Row {
        from: 1,
        accept: -1,
        reject: 49,
    };
    let numbers = TableNumbers {
        cut: 48,
        cut_number: 48,
        margin: 0,
        trapezoid: 0,
        uniform: 0,
        peak: 0,
    };
    Ok(Tabled::new(&[row], numbers)?)
}
