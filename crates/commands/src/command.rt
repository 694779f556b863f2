// The commands, with what was typed for each.
use journal::Signal;
use runs::Call;
use verification::Check;

// Which of a verification's two plans is typed; with which one a point begins is `PlanUsed`.
#[derive(Clone, Copy, PartialEq, Eq, Debug)]
pub enum Role {
    Main,
    Short,
}

#[derive(Clone, Copy, PartialEq, Eq, Debug)]
pub enum Command {
    New,
    Manual(Signal, Check),
    Notice(usize),
    // the words that follow are the plan
    Plan(Role),
    AskNumbers(Role),
    AskNorms(Role, u32),
    // numbers as they are typed, here and below: whether a kind is known is a question
    Orders(i32, i32, i32),
    Journal(i32),
    Call(Call),
    Certificate(usize),
    Audit,
    Dump,
    // the bytes from one place up to another, or to the end
    Read(usize, Option<usize>),
    // the word that follows is bytes in hexadecimal, for a place
    Bytes(usize),
    // the words that follow are the fields of a record of that kind, for a place
    Write(usize, i32),
}
