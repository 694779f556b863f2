// What a command is answered with.
use journal::Signal;
use method::{Question, Verdict};
use point::Level;

// The numbers of a plan that hold at every observation.
#[derive(Clone, Copy, PartialEq, Eq, Debug)]
pub struct PlanNumbers {
    pub cut: u32,
    pub cut_number: u32,
    pub margin: u32,
    pub trapezoid: u32,
    pub uniform: u32,
}

// The norms of one observation.
#[derive(Clone, Copy, PartialEq, Eq, Debug)]
pub struct Norms {
    pub accept: i32,
    pub reject: u32,
    pub offset: i32,
}

// The codes that a run accepted, and its verdict if it has ended.
#[derive(Clone, Copy, PartialEq, Eq, Debug)]
pub struct Run {
    pub codes: u32,
    pub verdict: Option<Verdict>,
}

#[derive(Clone, Copy, PartialEq, Eq, Debug)]
pub enum Reply {
    Done,
    Notice(Signal),
    Length(usize),
    Numbers(PlanNumbers),
    Norms(Norms),
    Level(Level),
    Undecided,
    Decided(Verdict),
    Closed(Verdict, usize),
    // what the calls since the orders come to under each stop rule
    Audited(Run, Run),
    Refused(Question),
    // a use that the types of a verification keep from building
    Misuse,
    Syntax,
}
