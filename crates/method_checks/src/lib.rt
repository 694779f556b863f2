// Tests of the plans of control and of what their constructors refuse.
#![tactic(auto)]

#[cfg(test)]
mod lines;
#[cfg(test)]
mod refusals;
#[cfg(test)]
mod tables;
