// What orders declare.
ghost use Rattle.verification.specs.Ordering.{NamesRule};

use method::Question;
use point::Control;
use std::marker::Model;

// When an unfit point is closed the verification ends, or it goes through all points.
#[derive(Clone, Copy, PartialEq, Eq, Debug)]
pub enum StopRule {
    FirstUnfit,
    AllPoints,
}

impl TryFrom<i32> for StopRule {
    type Error = Question;

    ghost try_from_gives = { NamesRule };

    fn try_from(number: i32) -> Result<StopRule, Question> {
        match number {
            1 => Ok(StopRule::FirstUnfit),
            2 => Ok(StopRule::AllPoints),
            _ => Err(Question::StopRuleKnown),
        }
    }
}

// The points are 1 to 999.
#[derive(Clone, Copy)]
pub struct Declared {
    pub points: u32,
    pub control: Control,
    pub rule: StopRule,
}

impl Model for Declared {
    ghost use Rattle.std.specs.Prelude.{◌≤◌};
    ghost use Rattle.verification.specs.Orders.{Terms};

    ghost Value = { Terms };

    ghost view = { λ d. record { points = d.points; control = d.control; rule = d.rule } };

    ghost invariant = { λ d. (1 ≤ d.points) × (d.points ≤ 999) };

    ghost inverse = { λ t. record { points = t.points; control = t.control; rule = t.rule } };
}
