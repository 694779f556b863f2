// Tests against the worked examples that MI 860-85 prints in its appendix 10, run through the calls of a verification.
#![tactic(auto)]

#[cfg(test)]
mod drive;
#[cfg(test)]
mod example;
#[cfg(test)]
mod meter;
#[cfg(test)]
mod normal;
#[cfg(test)]
mod observations;
#[cfg(test)]
mod reduced;
#[cfg(test)]
mod strengthened;
