// The words that every other crate uses: what a refusal names, verdicts, the measures, and the plans of control.
#![tactic(auto)]

mod line;
pub mod measures;
mod plan;
mod question;
mod ranges;
mod row;
mod rows;
mod tabled;
mod three_step;
mod truncated;
mod verdict;

pub use line::{Coefficients, Line};
pub use plan::Plan;
pub use question::Question;
pub use row::{Row, TableLimits, TableNumbers};
pub use tabled::Tabled;
pub use three_step::ThreeStep;
pub use truncated::Truncated;
pub use verdict::Verdict;
