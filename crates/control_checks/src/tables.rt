// What the tests run on: laboratory plans, and permitted errors that are in range.
use control::Permitted;
use method::{Row, TableNumbers, Tabled};
use std::test::Fail;

pub const PATIENT: TableNumbers = TableNumbers {
    cut: 48,
    cut_number: 48,
    margin: 0,
    trapezoid: 9_999,
    uniform: 0,
    peak: 0,
};

// A plan with these numbers at each observation.
fn flat(accept: i32, reject: i32) -> Result<Tabled, Fail> {
    let rows = [Row {
        from: 1,
        accept,
        reject,
    }];
    Ok(Tabled::new(&rows, PATIENT)?)
}

// Neither accepts nor rejects before its cut, and is fit there whatever came.
pub fn patient() -> Result<Tabled, Fail> {
    flat(-1, 49)
}

// Is fit at the first observation in tolerance, and unfit at the first out of it.
pub fn hasty() -> Result<Tabled, Fail> {
    flat(0, 1)
}

pub fn permitted(meter: i32, reference: i32) -> Result<Permitted, Fail> {
    Ok(Permitted::new(meter, reference)?)
}
