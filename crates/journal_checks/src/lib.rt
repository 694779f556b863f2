// Examples of the journal, their bytes worked by hand.
#![tactic(auto)]

#[cfg(test)]
mod journals;
#[cfg(test)]
mod records;
