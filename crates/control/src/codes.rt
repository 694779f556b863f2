// The settling codes of a point, and how settling ended.

// How many settling codes there were, the latest of them and the one before it; the count says which of the two are there, so they are no Options.
#[derive(Clone, Copy, PartialEq, Eq, Debug)]
pub struct Codes {
    pub count: u32,
    pub last: i32,
    pub previous: i32,
}

pub const NO_CODES: Codes = Codes {
    count: 0,
    last: 0,
    previous: 0,
};

// What ended the settling: the latest three codes agreed, or no more codes are allowed.
#[derive(Clone, Copy, PartialEq, Eq, Debug)]
pub enum SettledBy {
    Agreement,
    LastCode,
}

// Settling that is over: by what, and how many codes it took.
#[derive(Clone, Copy, PartialEq, Eq, Debug)]
pub struct Settled {
    pub by: SettledBy,
    pub codes: u32,
}
