// How far a verification is.
ghost use Rattle.std.specs.Prelude.{◌≡◌, ◌≤◌};
ghost use Rattle.verification.specs.Calls.{closed_with};

use method::Verdict;
use point::{Carried, Outcome, Phase};

// Points closed and those of them unfit, codes accepted, what the next point goes by, and how far the open point is.
#[derive(Clone, Copy)]
pub struct Progress {
    pub closed: u32,
    pub unfit: u32,
    pub codes: u32,
    pub carried: Carried,
    pub phase: Phase,
}

impl Progress {
    // The progress with one more point closed.
    pub(crate) fn with(&self, outcome: &Outcome) -> Progress
        requires { (self.now.unfit ≤ self.now.closed) × (self.now.closed ≤ 998) }
        ensures { result ≡ closed_with self.now outcome.now }
    {
        let unfit = match outcome.verdict {
            Verdict::Fit => self.unfit,
            Verdict::Unfit => self.unfit + 1,
        };
        Progress {
            closed: self.closed + 1,
            unfit,
            codes: self.codes,
            carried: outcome.passed_on(),
            phase: Phase::Waiting,
        }
    }
}
