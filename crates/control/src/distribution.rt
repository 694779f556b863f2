// How the reference's error is taken to be distributed, which chooses a plan's coefficient.

#[derive(Clone, Copy, PartialEq, Eq, Debug)]
pub enum Distribution {
    Trapezoid,
    Uniform,
}
