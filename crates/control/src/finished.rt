// An attempt that has ended.
ghost use Rattle.std.specs.Prelude.{◌≡◌, ◌≤◌};
ghost use Rattle.control.specs.Attempts.{Sound};
ghost use Rattle.control.specs.Statistics.{dominant, quantity_verdict};

use crate::statistics::{is_dominant, quantity_control};
use crate::tally::Tally;
use crate::tolerance::Tolerance;
use method::Verdict;

#[derive(Clone, Copy, PartialEq, Eq, Debug)]
pub struct Finished {
    pub(crate) verdict: Verdict,
    pub(crate) tally: Tally,
    pub(crate) tolerance: Tolerance,
    ghost sound: { Sound tally },
    ghost some: { 1 ≤ tally.observations },
}

impl Finished {
    // How the sequence ended.
    pub fn verdict(&self) -> Verdict
        ensures { result ≡ self.now.verdict }
    {
        self.verdict
    }

    // The numbers with the last observation.
    pub fn tally(&self) -> Tally
        ensures { result ≡ self.now.tally }
    {
        self.tally
    }

    // What every observation was held to.
    pub fn tolerance(&self) -> Tolerance
        ensures { result ≡ self.now.tolerance }
    {
        self.tolerance
    }

    // How quantity control of the attempt ends.
    pub fn quantity(&self) -> Verdict
        ensures { result ≡ quantity_verdict self.now.tolerance.width self.now.tally }
    {
        quantity_control(self.tally, self.tolerance.width)
    }

    // Whether the systematic part of the errors dominates their spread.
    pub fn dominance(&self) -> bool
        ensures { result ≡ dominant self.now.tally }
    {
        is_dominant(self.tally)
    }
}
