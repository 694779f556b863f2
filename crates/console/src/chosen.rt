// A plan that is chosen at run time.
ghost use Rattle.console.specs.Chosen.{chosen_meaning};
ghost use Rattle.method.specs.Plans.{Alike, standard_control, truncated};
ghost use Rattle.method.specs.Refusals.{refused_by, truncation_refusal};
ghost use Rattle.std.specs.Prelude.{◌≡◌, IfOk, unsigned_abs};
ghost use Rattle.console.specs.ChosenRanges.{chosen_ranged};

use method::{Line, Plan, Question, Tabled, ThreeStep, Truncated};

// Each plan with its own cut, or truncated. A truncation of a truncation is one truncation.
#[derive(Clone, Copy)]
pub enum ChosenPlan {
    Line(Line),
    CutLine(Truncated<Line>),
    Short(ThreeStep),
    CutShort(Truncated<ThreeStep>),
    Table(Tabled),
    CutTable(Truncated<Tabled>),
}

// The same question to whichever plan it is. A macro, since a closure is for one type of plan, and a Copy trait has no dyn.
macro_rules! ask {
    ($chosen:expr, $plan:ident => $answer:expr) => {
        match $chosen {
            ChosenPlan::Line($plan) => $answer,
            ChosenPlan::CutLine($plan) => $answer,
            ChosenPlan::Short($plan) => $answer,
            ChosenPlan::CutShort($plan) => $answer,
            ChosenPlan::Table($plan) => $answer,
            ChosenPlan::CutTable($plan) => $answer,
        }
    };
}

impl ChosenPlan {
    // The standard control by a line.
    pub fn standard(line: Line) -> ChosenPlan
        ensures { chosen_meaning result ≡ standard_control line }
    {
        ChosenPlan::CutLine(Truncated::standard(line))
    }

    // The plan with a cut and a cut number of its own.
    pub fn truncate(self, cut: i32, cut_number: i32) -> Result<ChosenPlan, Question>
        ensures refuses { refused_by result ≡ truncation_refusal (chosen_meaning self).cut cut cut_number }
        ensures makes { IfOk result (λ t. Alike (chosen_meaning t) (truncated (chosen_meaning self) (unsigned_abs cut) (unsigned_abs cut_number))) }
    {
        // each arm makes another variant
        match self {
            ChosenPlan::Line(p) => Ok(ChosenPlan::CutLine(Truncated::new(p, cut, cut_number)?)),
            ChosenPlan::CutLine(p) => Ok(ChosenPlan::CutLine(p.truncate(cut, cut_number)?)),
            ChosenPlan::Short(p) => Ok(ChosenPlan::CutShort(Truncated::new(p, cut, cut_number)?)),
            ChosenPlan::CutShort(p) => Ok(ChosenPlan::CutShort(p.truncate(cut, cut_number)?)),
            ChosenPlan::Table(p) => Ok(ChosenPlan::CutTable(Truncated::new(p, cut, cut_number)?)),
            ChosenPlan::CutTable(p) => Ok(ChosenPlan::CutTable(p.truncate(cut, cut_number)?)),
        }
    }
}

impl Plan for ChosenPlan {
    ghost meaning = { chosen_meaning };

    ghost ranged = { λ p. chosen_ranged p };

    fn cut(&self) -> u32 {
        ask!(self, p => p.cut())
    }

    fn cut_number(&self) -> u32 {
        ask!(self, p => p.cut_number())
    }

    fn accept_number(&self, i: u32) -> i32 {
        ask!(self, p => p.accept_number(i))
    }

    fn reject_number(&self, i: u32) -> u32 {
        ask!(self, p => p.reject_number(i))
    }

    fn offset(&self, i: u32) -> i32 {
        ask!(self, p => p.offset(i))
    }

    fn margin(&self) -> u32 {
        ask!(self, p => p.margin())
    }

    fn trapezoid_k(&self) -> u32 {
        ask!(self, p => p.trapezoid_k())
    }

    fn uniform_k(&self) -> u32 {
        ask!(self, p => p.uniform_k())
    }
}
