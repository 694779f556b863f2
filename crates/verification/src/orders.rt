// The orders of a verification.
ghost use Rattle.std.specs.Prelude.{◌≡◌, IfOk};
ghost use Rattle.method.specs.Refusals.{refused_by};
ghost use Rattle.verification.specs.Ordering.{as_declared, orders_refusal};

use crate::declared::{Declared, StopRule};
use method::Question;
use method::measures::POINTS_MAX;
use point::Control;

// Orders that were accepted.
#[derive(Clone, Copy)]
pub struct Orders {
    pub(crate) declared: Declared,
}

impl Orders {
    // Numbers and no enums: two of the questions ask whether the kind and the rule are known.
    // Points 1 to 999; control 1 (full) or 2 (reduced); stop rule 1 (at the first unfit point) or 2 (all points).
    pub fn new(points: i32, control: i32, rule: i32) -> Result<Orders, Question>
        ensures refuses { refused_by result ≡ orders_refusal points control rule }
        ensures makes { IfOk result (λ o. o.declared ≡ as_declared points control rule) }
    {
        if !(1..=POINTS_MAX).contains(&points) {
            return Err(Question::PointsInRange);
        }
        Ok(Orders {
            declared: Declared {
                points: points.unsigned_abs(),
                control: Control::try_from(control)?,
                rule: StopRule::try_from(rule)?,
            },
        })
    }

    // What was declared.
    pub fn declared(&self) -> Declared
        ensures { result ≡ self.now.declared }
    {
        self.declared
    }
}
