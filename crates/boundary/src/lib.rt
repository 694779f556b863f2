// Test equipment: the library as functions for C, so that it can be compared with an implementation in another language.
// Its contracts are light: it is proved safe and ending, and what the calls answer is the contract of the crates below.
#![tactic(auto)]

mod plans;
mod reading;
mod running;
mod wire;

pub use plans::hemmertaupe_ask;
pub use reading::{hemmertaupe_count, hemmertaupe_read};
pub use running::{
    hemmertaupe_run, hemmertaupe_run_standard, hemmertaupe_size, hemmertaupe_size_standard,
};
pub use wire::{Asked, Call, Item, Reply};
