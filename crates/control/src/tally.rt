// The numbers of an attempt. A list of any length has such numbers, so an attempt's bounds (`Sound`) stand where attempts do, and not here.

#[derive(Clone, Copy, PartialEq, Eq, Debug)]
pub struct Tally {
    pub observations: u32,
    // those out of tolerance
    pub outs: u32,
    // of the errors as they count, and of their squares
    pub sum: i32,
    pub squares: u32,
    // whether an error was wild
    pub wild: bool,
}

pub const NONE_YET: Tally = Tally {
    observations: 0,
    outs: 0,
    sum: 0,
    squares: 0,
    wild: false,
};
