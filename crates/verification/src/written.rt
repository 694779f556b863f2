// What is answered where a record was written.
use method::Verdict;

// The verdict of the point or of the instrument, and how many bytes its record took.
#[derive(Clone, Copy, PartialEq, Eq, Debug)]
pub struct Written {
    pub verdict: Verdict,
    pub length: usize,
}
