// What a list of calls comes to.
use method::Question;
use verification::Written;

// The codes accepted, and the certificate that was written then, or the question that stood in its way.
#[derive(Clone, Copy, PartialEq, Eq, Debug)]
pub struct Outcome {
    pub codes: usize,
    pub certificate: Result<Written, Question>,
}

// One list under the two stop rules.
#[derive(Clone, Copy, PartialEq, Eq, Debug)]
pub struct Audit {
    pub first_unfit: Outcome,
    pub all_points: Outcome,
}
