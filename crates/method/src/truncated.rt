// Any plan with a cut and a cut number of its own.
ghost use Rattle.std.specs.Prelude.{◌≡◌, ◌≤◌, IfOk, unsigned_abs, ⊤};
ghost use Rattle.method.specs.Lines.{line, numbers_of};
ghost use Rattle.method.specs.Plans.{Alike, Holds, standard_control, truncated};
ghost use Rattle.method.specs.Refusals.{refused_by, truncation_refusal};
ghost use Rattle.method.specs.Ranges.{truncated_ranged};

use crate::line::Line;
use crate::measures::{CUT_MIN, NO_ACCEPT, NO_OFFSET, NO_REJECT};
use crate::plan::{Plan, is_within};
use crate::question::Question;
use crate::ranges::limit;
use std::alloc::AllocError;

pub struct Truncated<P: Plan> {
    plan: P,
    cut: u32,
    cut_number: u32,
    ghost low: { 2 ≤ cut },
    ghost high: { cut ≤ 48 },
    ghost few: { cut_number ≤ cut },
}

// Written, since a generic struct with a ghost field derives no Clone.
impl<P: Plan> Clone for Truncated<P> {
    ghost is_clone = { λ x y. y ≡ x };

    ghost is_infallible = { λ _. ⊤ };

    fn clone(&self) -> Result<Truncated<P>, AllocError> {
        Ok(*self)
    }
}

impl<P: Plan> Copy for Truncated<P> {}

// The plan cut at `cut`, no later than `beneath`.
fn cut_at<P: Plan>(
    plan: P,
    beneath: u32,
    cut: i32,
    cut_number: i32,
) -> Result<Truncated<P>, Question>
    requires { beneath ≤ 48 }
    ensures refuses { refused_by result ≡ truncation_refusal beneath cut cut_number }
    ensures makes { IfOk result (λ t. Holds plan cut cut_number t.plan t.cut t.cut_number) }
    ensures earlier { IfOk result (λ t. t.cut ≤ beneath) }
{
    let cut = limit(CUT_MIN, beneath, cut).ok_or(Question::TruncationCutInRange)?;
    let cut_number = limit(0, cut, cut_number).ok_or(Question::TruncationNumberInRange)?;
    Ok(Truncated {
        plan,
        cut,
        cut_number,
    })
}

impl<P: Plan> Truncated<P> {
    // The plan cut at `cut`, where an attempt is fit with at most `cut_number` out.
    pub fn new(plan: P, cut: i32, cut_number: i32) -> Result<Truncated<P>, Question>
        ensures refuses { refused_by result ≡ truncation_refusal (P.Plan.meaning plan).cut cut cut_number }
        ensures makes { IfOk result (λ t. Holds plan cut cut_number t.plan t.cut t.cut_number) }
    {
        let beneath = plan.cut();
        cut_at(plan, beneath, cut, cut_number)
    }

    // A truncation of this truncation, which is the same plan cut earlier.
    pub fn truncate(self, cut: i32, cut_number: i32) -> Result<Truncated<P>, Question>
        ensures refuses { refused_by result ≡ truncation_refusal self.cut cut cut_number }
        ensures makes { IfOk result (λ t. Holds self.plan cut cut_number t.plan t.cut t.cut_number) }
        ensures alike { IfOk result (λ t. Alike (truncated (P.Plan.meaning t.plan) t.cut t.cut_number) (truncated (truncated (P.Plan.meaning self.plan) self.cut self.cut_number) (unsigned_abs cut) (unsigned_abs cut_number))) }
    {
        cut_at(self.plan, self.cut, cut, cut_number)
    }
}

impl Truncated<Line> {
    // The standard control by a line: strengthened is cut at 44 with 2, and normal at 40 with 4.
    pub fn standard(which: Line) -> Truncated<Line>
        ensures { truncated (line (numbers_of result.plan)) result.cut result.cut_number ≡ standard_control which }
    {
        let (cut, cut_number) = match which {
            Line::Strengthened => (44, 2),
            Line::Normal => (40, 4),
        };
        Truncated {
            plan: which,
            cut,
            cut_number,
        }
    }
}

impl<P: Plan> Plan for Truncated<P> {
    ghost meaning = { λ t. truncated (P.Plan.meaning t.plan) t.cut t.cut_number };

    ghost ranged = { λ t. truncated_ranged (P.Plan.meaning t.plan) t.cut t.cut_number (P.Plan.ranged t.plan) t.low t.high t.few };

    fn cut(&self) -> u32 {
        self.cut
    }

    fn cut_number(&self) -> u32 {
        self.cut_number
    }

    // Each answer of the plan beneath is asked by its own name: a function over the three would name them as often.
    fn accept_number(&self, i: u32) -> i32 {
        if is_within(self.cut, i) {
            self.plan.accept_number(i)
        } else {
            NO_ACCEPT
        }
    }

    fn reject_number(&self, i: u32) -> u32 {
        if is_within(self.cut, i) {
            self.plan.reject_number(i)
        } else {
            NO_REJECT
        }
    }

    fn offset(&self, i: u32) -> i32 {
        if is_within(self.cut, i) {
            self.plan.offset(i)
        } else {
            NO_OFFSET
        }
    }

    fn margin(&self) -> u32 {
        self.plan.margin()
    }

    fn trapezoid_k(&self) -> u32 {
        self.plan.trapezoid_k()
    }

    fn uniform_k(&self) -> u32 {
        self.plan.uniform_k()
    }
}
