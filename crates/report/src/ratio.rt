// The size of the mean over the standard deviation of the observations.

#[derive(Clone, Copy, PartialEq, Eq, Debug)]
pub enum Ratio {
    Undefined,
    Infinite,
    Hundredths(u64),
}
