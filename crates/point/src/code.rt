// A code of the meter.
ghost use Rattle.method.specs.Refusals.{asks, refused_by};
ghost use Rattle.method.specs.declared.question.Question.TheVariants.{CodeLegal};
ghost use Rattle.point.specs.Levels.{legal_code};
ghost use Rattle.std.specs.Prelude.{◌≡◌, None, IfOk};

use method::Question;
use method::measures::CODE_MAX;
use std::marker::Model;

// In steps, and one that a meter can show.
#[derive(Clone, Copy)]
pub struct Code {
    pub(crate) steps: i32,
}

impl Model for Code {
    ghost use Rattle.std.specs.Prelude.{◌≡◌, true, ℤ};
    ghost use Rattle.point.specs.Levels.{legal_code};

    ghost Value = { ℤ };

    ghost view = { λ c. c.steps };

    ghost invariant = { λ c. legal_code c.steps ≡ true };

    ghost inverse = { λ z. record { steps = z } };
}

impl Code {
    // A meter shows at most 1,999,999 steps in size.
    pub fn new(steps: i32) -> Result<Code, Question>
        ensures refuses { refused_by result ≡ asks (legal_code steps) CodeLegal None }
        ensures makes { IfOk result (λ c. c ≡ steps) }
    {
        if !(-CODE_MAX..=CODE_MAX).contains(&steps) {
            return Err(Question::CodeLegal);
        }
        Ok(Code { steps })
    }
}
