// The fields that records are made of: their widths in bits and their ranges.
use crate::field::Field;

// The number of a record's kind, in front of its fields.
pub(crate) const KIND: Field = Field {
    width: 4,
    low: 1,
    high: 15,
};

// A point's number, or how many points were declared.
pub(crate) const POINT: Field = Field {
    width: 10,
    low: 1,
    high: 999,
};

// What the first attempt was, if a second one decided.
pub(crate) const FIRST_ATTEMPT: Field = Field {
    width: 3,
    low: 0,
    high: 3,
};

// How many observations an attempt made, and how many were out of tolerance.
pub(crate) const OBSERVATIONS: Field = Field {
    width: 6,
    low: 1,
    high: 48,
};

pub(crate) const OUTS: Field = Field {
    width: 6,
    low: 0,
    high: 48,
};

// Yes or no, fit or unfit.
pub(crate) const FLAG: Field = Field {
    width: 1,
    low: 0,
    high: 1,
};

// What quantity control found.
pub(crate) const QUANTITY: Field = Field {
    width: 2,
    low: 0,
    high: 2,
};

// How many codes settled the point.
pub(crate) const SETTLING_CODES: Field = Field {
    width: 8,
    low: 0,
    high: 200,
};

// The tolerance D of an attempt, the sum S of its errors and the sum Q of their squares.
pub(crate) const TOLERANCE: Field = Field {
    width: 24,
    low: 1,
    high: 10_000_000,
};

pub(crate) const SUM: Field = Field {
    width: 18,
    low: -96_000,
    high: 96_000,
};

pub(crate) const SQUARES: Field = Field {
    width: 28,
    low: 0,
    high: 192_000_000,
};

// How many of the declared points were closed, and how many of those unfit.
pub(crate) const CLOSED: Field = Field {
    width: 10,
    low: 1,
    high: 999,
};

pub(crate) const UNFIT: Field = Field {
    width: 10,
    low: 0,
    high: 999,
};

// How many codes a verification accepted.
pub(crate) const CODES_ACCEPTED: Field = Field {
    width: 24,
    low: 0,
    high: 295_704,
};

// Which signal failed.
pub(crate) const SIGNAL: Field = Field {
    width: 2,
    low: 1,
    high: 3,
};
