// The two lines of sequential control.
ghost use Rattle.std.specs.Prelude.{◌≡◌, ◌*◌, ◌≤◌};
ghost use Rattle.method.specs.Lines.{line, numbers_of};
ghost use Rattle.method.specs.Ranges.{line_ranged};

use crate::measures::{CUT_MAX, NO_ACCEPT, NO_OFFSET, NO_REJECT, SCALE};
use crate::plan::{Plan, is_within, peaked_offset};

// No other line can be made.
#[derive(Clone, Copy, PartialEq, Eq, Debug)]
pub enum Line {
    Strengthened,
    Normal,
}

// A line's whole numbers: it accepts (s i - a) / 10,000 and rejects (s i + r) / 10,000 at observation i.
#[derive(Clone, Copy, PartialEq, Eq, Debug)]
pub struct Coefficients {
    pub a: u32,
    pub r: u32,
    pub s: u32,
    pub peak: u32,
    pub trapezoid: u32,
    pub uniform: u32,
}

const STRENGTHENED: Coefficients = Coefficients {
    a: 14_925,
    r: 14_925,
    s: 612,
    peak: 11,
    trapezoid: 8_775,
    uniform: 9_800,
};

const NORMAL: Coefficients = Coefficients {
    a: 16_223,
    r: 18_981,
    s: 1_103,
    peak: 10,
    trapezoid: 6_127,
    uniform: 8_000,
};

impl Line {
    pub fn coefficients(self) -> Coefficients
        ensures { result ≡ numbers_of self }
    {
        match self {
            Line::Strengthened => STRENGTHENED,
            Line::Normal => NORMAL,
        }
    }
}

// s i, which both lines rise by.
fn rise(s: u32, i: u32) -> u32
    requires gentle { s ≤ 1103 }
    requires early { i ≤ 48 }
    ensures is { result ≡ s * i }
    ensures small { result ≤ 52944 }
{
    s * i
}

impl Plan for Line {
    ghost meaning = { λ l. line (numbers_of l) };

    ghost ranged = { λ p. line_ranged p };

    fn cut(&self) -> u32 {
        CUT_MAX
    }

    fn cut_number(&self) -> u32 {
        CUT_MAX
    }

    // Rounded down; a line that is negative accepts none. By `as`, since i32 has no From of a u32 and a TryFrom would need a case.
    fn accept_number(&self, i: u32) -> i32 {
        if !is_within(CUT_MAX, i) {
            return NO_ACCEPT;
        }
        let k = self.coefficients();
        match rise(k.s, i).checked_sub(k.a) {
            Some(above) => (above / SCALE) as i32,
            None => NO_ACCEPT,
        }
    }

    // Rounded up.
    fn reject_number(&self, i: u32) -> u32 {
        if !is_within(CUT_MAX, i) {
            return NO_REJECT;
        }
        let k = self.coefficients();
        (rise(k.s, i) + k.r).div_ceil(SCALE)
    }

    fn offset(&self, i: u32) -> i32 {
        if is_within(CUT_MAX, i) {
            peaked_offset(self.coefficients().peak, i)
        } else {
            NO_OFFSET
        }
    }

    fn margin(&self) -> u32 {
        0
    }

    fn trapezoid_k(&self) -> u32 {
        self.coefficients().trapezoid
    }

    fn uniform_k(&self) -> u32 {
        self.coefficients().uniform
    }
}
