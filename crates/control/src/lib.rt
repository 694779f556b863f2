// What happens at one point: settling, tolerances, an attempt and its sequence, quantity control, dominance, and the laws over lists of errors.
#![tactic(auto)]

mod attempt;
mod codes;
mod distribution;
mod ending;
mod errors;
mod examples;
mod finished;
mod observation;
mod pair;
mod permitted;
mod sequences;
mod settling;
mod soonest;
mod statistics;
mod tally;
mod tolerance;

pub use attempt::Attempt;
pub use codes::{Codes, NO_CODES, Settled, SettledBy};
pub use distribution::Distribution;
pub use ending::Ending;
pub use examples::examples_hold;
pub use finished::Finished;
pub use observation::observed;
pub use pair::{Endings, sequence_pair};
pub use permitted::Permitted;
pub use sequences::sequence;
pub use settling::{Settling, settle, settled_with};
pub use soonest::soonest_fit;
pub use statistics::{is_dominant, quantity_control, student};
pub use tally::{NONE_YET, Tally};
pub use tolerance::{Tolerance, tolerance_width};
