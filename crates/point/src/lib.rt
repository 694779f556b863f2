// One point put together: its settling, its attempts in order, and how it is decided, over any two plans.
#![tactic(auto)]

mod code;
mod ends;
mod levels;
mod phase;
mod plans;
mod setting;
mod settles;
mod trials;

pub use code::Code;
pub use phase::{
    Before, Carried, Control, Course, Ended, Level, Ongoing, Outcome, Phase, PlanUsed, State,
    Trial, Unsettled,
};
pub use plans::Plans;
pub use setting::Setting;
