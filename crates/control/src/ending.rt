// Where and how an attempt's sequence ends.
use method::Verdict;

#[derive(Clone, Copy, PartialEq, Eq, Debug)]
pub struct Ending {
    pub verdict: Verdict,
    // the observation that brought it
    pub at: u32,
}
