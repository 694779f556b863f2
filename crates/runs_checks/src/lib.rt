// Tests of whole runs: the most codes that a point and a verification can take, and the two stop rules.
#![tactic(auto)]

#[cfg(test)]
mod longest;
#[cfg(test)]
mod start;
#[cfg(test)]
mod stops;
