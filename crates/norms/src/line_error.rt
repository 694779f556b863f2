// Why a line asks for nothing that is printed. Each program has errors of its own.
use console::PlanError;
use method::Question;
use std::alloc::AllocFailed;
use std::fmt;

#[derive(Clone, Copy, PartialEq, Eq, Debug)]
pub enum LineError {
    Syntax,
    Refused(Question),
    NoMemory,
}

// By hand: thiserror's `#[from]` only wraps, and this takes apart.
impl From<PlanError> for LineError {
    fn from(error: PlanError) -> LineError {
        match error {
            PlanError::Syntax => LineError::Syntax,
            PlanError::Refused(question) => LineError::Refused(question),
        }
    }
}

impl From<Question> for LineError {
    fn from(question: Question) -> LineError {
        LineError::Refused(question)
    }
}

impl<T: Drop> From<AllocFailed<T>> for LineError {
    fn from(_: AllocFailed<T>) -> LineError {
        LineError::NoMemory
    }
}

impl fmt::Display for LineError {
    fn fmt<W: fmt::Write>(&self, f: &mut fmt::Formatter<W>) -> fmt::Result {
        match self {
            LineError::Syntax => f.write_str("syntax"),
            LineError::Refused(question) => {
                let number = question.number();
                write!(f, "refused {number} {question}")
            }
            LineError::NoMemory => f.write_str("no memory"),
        }
    }
}
