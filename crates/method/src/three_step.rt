// The short plan: three observations, all of which have to be in tolerance.
ghost use Rattle.method.specs.Plans.{three_step};
ghost use Rattle.std.specs.Prelude.{◌≡◌};
ghost use Rattle.method.specs.Ranges.{three_step_ranged};

use crate::measures::{NO_ACCEPT, NO_OFFSET, NO_REJECT};
use crate::plan::{Plan, is_within};

#[derive(Clone, Copy, PartialEq, Eq, Debug)]
pub struct ThreeStep;

const CUT: u32 = 3;

const COEFFICIENT: u32 = 8_000;

impl Plan for ThreeStep {
    ghost meaning = { λ _. three_step };

    ghost ranged = { λ p. three_step_ranged };

    fn cut(&self) -> u32 {
        CUT
    }

    fn cut_number(&self) -> u32 {
        0
    }

    fn accept_number(&self, i: u32) -> i32 {
        if i == CUT { 0 } else { NO_ACCEPT }
    }

    fn reject_number(&self, i: u32) -> u32 {
        if is_within(CUT, i) { 1 } else { NO_REJECT }
    }

    fn offset(&self, i: u32) -> i32 {
        match i {
            1 => -5,
            3 => 5,
            _ => NO_OFFSET,
        }
    }

    // Half a step, and one more so that the inequality is strict.
    fn margin(&self) -> u32 {
        50_001
    }

    fn trapezoid_k(&self) -> u32 {
        COEFFICIENT
    }

    fn uniform_k(&self) -> u32 {
        COEFFICIENT
    }
}
