// Examples of what a protocol tells, worked by hand.
#![tactic(auto)]

#[cfg(test)]
mod estimates;
#[cfg(test)]
mod outcomes;
#[cfg(test)]
mod texts;
