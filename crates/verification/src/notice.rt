// What a manual signal comes to.
use journal::Signal;

#[derive(Clone, Copy, PartialEq, Eq, Debug)]
pub enum Check {
    Passed,
    Failed,
}

// Which signal failed. It ends the verification before it began.
#[derive(Clone, Copy, PartialEq, Eq, Debug)]
pub struct Notice {
    pub failed: Signal,
}
