// A verification from its manual signals to its certificate, over any main and any short plan.
#![tactic(auto)]

mod calls;
mod certificates;
mod declared;
mod machine;
mod notice;
mod orders;
mod progress;
mod records;
mod stages;
mod written;

pub use declared::{Declared, StopRule};
pub use machine::Verification;
pub use notice::{Check, Notice};
pub use orders::Orders;
pub use progress::Progress;
pub use stages::{Inspection, Insulation, Ready, Trial};
pub use written::Written;
