// What a call of a list was answered.
use method::{Question, Verdict};
use point::Level;
use verification::Written;

// By the call that it answers.
#[derive(Clone, Copy, PartialEq, Eq, Debug)]
pub enum Answer {
    Opened(Result<(), Question>),
    Leveled(Result<Level, Question>),
    Coded(Result<Option<Verdict>, Question>),
    Belated(Result<Option<Verdict>, Question>),
    Closed(Result<Written, Question>),
}
