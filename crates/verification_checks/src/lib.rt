// Tests of whole points and of every call's questions, on normal control with three-step as the short plan.
#![tactic(auto)]

#[cfg(test)]
mod drive;
#[cfg(test)]
mod points;
#[cfg(test)]
mod questions;
#[cfg(test)]
mod reduced;
#[cfg(test)]
mod settling;
#[cfg(test)]
mod stops;
