// The bench's commands: which line is which, and the text of each answer.
#![tactic(auto)]

mod command;
mod grammar;
mod line;
mod reply;
mod reply_text;
mod verb;

pub use command::{Command, Role};
pub use grammar::parse_line;
pub use line::Line;
pub use reply::{Norms, PlanNumbers, Reply, Run};
pub use reply_text::{fixed_line, push_reply};
pub use verb::{Verb, name_verb};
