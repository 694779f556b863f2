// Why a command was not done. Each program has errors of its own.
use commands::Reply;
use console::PlanError;
use method::Question;
use std::alloc::AllocError;

#[derive(Clone, Copy)]
pub enum Denied {
    // the line is no command
    Syntax,
    // a use that the types of a verification keep from building, or one for which there is no memory
    Misuse,
    Refused(Question),
}

// By hand: thiserror's `#[from]` is for an error that is printed as it stands; this one is printed as a reply.
impl From<Question> for Denied {
    fn from(question: Question) -> Denied {
        Denied::Refused(question)
    }
}

impl From<PlanError> for Denied {
    fn from(error: PlanError) -> Denied {
        match error {
            PlanError::Syntax => Denied::Syntax,
            PlanError::Refused(question) => Denied::Refused(question),
        }
    }
}

impl From<AllocError> for Denied {
    fn from(_: AllocError) -> Denied {
        Denied::Misuse
    }
}

impl From<Denied> for Reply {
    fn from(denied: Denied) -> Reply {
        match denied {
            Denied::Syntax => Reply::Syntax,
            Denied::Misuse => Reply::Misuse,
            Denied::Refused(question) => Reply::Refused(question),
        }
    }
}
