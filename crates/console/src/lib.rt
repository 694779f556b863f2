// What the programs share: the words and numbers of a line, and the plans that can be chosen by them.
#![tactic(auto)]

mod chosen;
mod number;
mod plan_name;
mod plan_words;
mod text;
mod words;

pub use chosen::ChosenPlan;
pub use number::{next_number, parse_number};
pub use plan_name::{PlanName, name_plan, same_word};
pub use plan_words::{PlanError, parse_plan};
pub use text::{push_bytes, push_number};
pub use words::Words;
