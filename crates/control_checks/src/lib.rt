// Tests of the crates below at the edges of their ranges. Every expected value is worked by hand, in a comment beside it.
#![tactic(auto)]

#[cfg(test)]
mod attempts;
#[cfg(test)]
mod settlings;
#[cfg(test)]
mod statistics;
#[cfg(test)]
mod tables;
#[cfg(test)]
mod tolerances;
