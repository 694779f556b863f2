// Whole runs: any list of calls on a new verification, and the laws that hold of every such run.
#![tactic(auto)]

mod answer;
mod audits;
mod call;
mod examples;
mod lists;
mod outcome;

pub use answer::Answer;
pub use audits::audit;
pub use call::Call;
pub use examples::judging_examples_hold;
pub use lists::run;
pub use outcome::{Audit, Outcome};
