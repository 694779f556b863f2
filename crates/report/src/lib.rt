// What a verifier is told of a journal's records: the estimates, their decimals, how a point settled, and the result.
#![tactic(auto)]

mod decimal;
mod dispersion;
mod estimates;
mod hex;
mod history;
mod outcome;
mod ratio;
mod rounding;
mod scan;

pub use decimal::{Decimal, Places};
pub use estimates::{limit_size, mean_size, ratio_size};
pub use hex::bytes_of_hex;
pub use history::{SettlingEnd, attempts_made, settling_end};
pub use outcome::{Outcome, outcome_after};
pub use ratio::Ratio;
pub use scan::HexError;
