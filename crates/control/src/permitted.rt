// The permitted errors of the meter and of the reference.
ghost use Rattle.std.specs.Prelude.{◌≡◌, ◌≤◌, pos, IfOk};
ghost use Rattle.control.specs.Tolerances.{permitted_refusal};
ghost use Rattle.method.specs.Refusals.{refused_by};

use method::Question;
use method::measures::{METER_ERROR_MAX, METER_ERROR_MIN};

// In tenths.
#[derive(Clone, Copy, PartialEq, Eq, Debug)]
pub struct Permitted {
    pub(crate) meter: u32,
    pub(crate) reference: u32,
    ghost some: { 1 ≤ meter },
    ghost high: { meter ≤ 1000 },
    ghost finer: { reference ≤ meter },
}

impl Permitted {
    // The meter's permitted error P, 1 to 1,000, and the reference's E, 0 to P.
    pub fn new(meter: i32, reference: i32) -> Result<Permitted, Question>
        ensures refuses { refused_by result ≡ permitted_refusal meter reference }
        ensures makes { IfOk result (λ t. (pos t.meter ≡ meter) × (pos t.reference ≡ reference)) }
    {
        if !(METER_ERROR_MIN..=METER_ERROR_MAX).contains(&meter) {
            return Err(Question::MeterErrorInRange);
        }
        if !(0..=meter).contains(&reference) {
            return Err(Question::ReferenceErrorInRange);
        }
        Ok(Permitted {
            meter: meter.unsigned_abs(),
            reference: reference.unsigned_abs(),
        })
    }

    pub fn meter(&self) -> u32
        ensures { result ≡ self.now.meter }
    {
        self.meter
    }

    pub fn reference(&self) -> u32
        ensures { result ≡ self.now.reference }
    {
        self.reference
    }
}
