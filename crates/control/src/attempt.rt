// An attempt on a plan, from its first observation to its end.
ghost use Rattle.std.specs.Prelude.{◌≡◌, ◌<◌, ◌≤◌, true, is_some, Some, None};
ghost use Rattle.std.specs.ControlFlow.{MatchControlFlow};
ghost use Rattle.control.specs.Attempts.{Observed, Sound, none_yet};
ghost use Rattle.control.specs.Sequences.{Brought};

use crate::finished::Finished;
use crate::observation::observed;
use crate::tally::{NONE_YET, Tally};
use crate::tolerance::Tolerance;
use method::{Plan, Verdict};
use std::ops::ControlFlow;

// An attempt that goes on: there is room for an observation more.
#[derive(Drop)]
pub struct Attempt {
    pub(crate) tally: Tally,
    pub(crate) tolerance: Tolerance,
    ghost sound: { Sound tally },
    ghost room: { tally.observations < 48 },
}

impl Attempt {
    // No observation yet.
    pub fn new(tolerance: Tolerance) -> Attempt
        ensures tally { result.tally ≡ none_yet }
        ensures tolerance { result.tolerance ≡ tolerance }
    {
        Attempt {
            tally: NONE_YET,
            tolerance,
        }
    }

    // The numbers so far.
    pub fn tally(&self) -> Tally
        ensures { result ≡ self.now.tally }
    {
        self.tally
    }

    // One observation more.
    pub fn observe<P: Plan>(self, plan: &P, error: i32) -> ControlFlow<Finished, Attempt>
        ensures { MatchControlFlow result (λ a. Observed (P.Plan.meaning plan.now) self.tolerance.width self.tally error a.tally None × (a.tolerance ≡ self.tolerance)) (λ f. Observed (P.Plan.meaning plan.now) self.tolerance.width self.tally error f.tally (Some f.verdict) × (f.tolerance ≡ self.tolerance)) }
    {
        let Attempt { tally, tolerance } = self;
        let (tally, verdict) = observed(plan, tolerance.width, tally, error);
        match verdict {
            None => ControlFlow::Continue(Attempt { tally, tolerance }),
            Some(verdict) => ControlFlow::Break(Finished {
                verdict,
                tally,
                tolerance,
            }),
        }
    }

    // A new attempt, brought by these errors to its end or as far as they go. Its numbers are those of the errors observed.
    pub fn over<P: Plan>(
        plan: &P,
        tolerance: Tolerance,
        errors: &[i32],
    ) -> ControlFlow<Finished, Attempt>
        ensures { MatchControlFlow result (λ a. Brought (P.Plan.meaning plan.now) tolerance.width errors.now a.tally None × (a.tolerance ≡ tolerance)) (λ f. Brought (P.Plan.meaning plan.now) tolerance.width errors.now f.tally (Some f.verdict) × (f.tolerance ≡ tolerance)) }
    {
        let mut attempt = Attempt::new(tolerance);
        for error in errors {
            attempt = attempt.observe(plan, *error)?;
        }
        ControlFlow::Continue(attempt)
    }
}
