// Decimals of whole numbers: nothing is rounded here.
ghost use Rattle.report.specs.Decimals.{decimal, unit};
ghost use Rattle.std.specs.Prelude.{◌≡◌};

use std::fmt;

// How many places stand behind the point.
#[derive(Clone, Copy, PartialEq, Eq, Debug)]
pub enum Places {
    One,
    Two,
    Five,
}

#[derive(Clone, Copy, PartialEq, Eq, Debug)]
pub struct Decimal {
    pub negative: bool,
    pub whole: u64,
    pub part: u64,
    pub places: Places,
}

fn unit_of(places: Places) -> u64
    ensures { result ≡ unit places }
{
    match places {
        Places::One => 10,
        Places::Two => 100,
        Places::Five => 100_000,
    }
}

impl Decimal {
    // So many units of the last place. Nothing below 0 that is rounded to 0 keeps its sign.
    pub fn new(is_negative: bool, units: u64, places: Places) -> Decimal
        ensures { result ≡ decimal is_negative units places }
    {
        let unit = unit_of(places);
        Decimal {
            negative: is_negative && units > 0,
            whole: units / unit,
            part: units % unit,
            places,
        }
    }
}

impl fmt::Display for Decimal {
    fn fmt<W: fmt::Write>(&self, f: &mut fmt::Formatter<W>) -> fmt::Result {
        let sign = if self.negative { "-" } else { "" };
        let whole = self.whole;
        let part = self.part;
        match self.places {
            Places::One => write!(f, "{sign}{whole}.{part}"),
            Places::Two => write!(f, "{sign}{whole}.{part:02}"),
            Places::Five => write!(f, "{sign}{whole}.{part:05}"),
        }
    }
}
