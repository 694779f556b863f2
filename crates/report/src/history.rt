// How a point came to its verdict, as far as its record tells.
ghost use Rattle.report.specs.History.{attempts, settled_by};
ghost use Rattle.std.specs.Prelude.{◌≡◌};

use journal::FirstAttempt;
use std::fmt;

// What can have ended a settling: agreement takes three codes, and none comes after the 200th.
#[derive(Clone, Copy, PartialEq, Eq, Debug)]
pub enum SettlingEnd {
    Late,
    AgreementOrLate,
    LimitAtLatest,
}

impl fmt::Display for SettlingEnd {
    fn fmt<W: fmt::Write>(&self, f: &mut fmt::Formatter<W>) -> fmt::Result {
        f.write_str(match self {
            SettlingEnd::Late => "broken off as late",
            SettlingEnd::AgreementOrLate => "agreed or broken off as late, which is not recorded",
            SettlingEnd::LimitAtLatest => "ended at the limit at the latest",
        })
    }
}

// What can have ended a settling of so many codes.
pub fn settling_end(codes: i32) -> SettlingEnd
    ensures { result ≡ settled_by codes }
{
    if codes < 3 {
        SettlingEnd::Late
    } else if codes < 200 {
        SettlingEnd::AgreementOrLate
    } else {
        SettlingEnd::LimitAtLatest
    }
}

// How many attempts a point had that a main attempt decided.
pub fn attempts_made(first: FirstAttempt) -> u32
    ensures { result ≡ attempts first }
{
    match first {
        FirstAttempt::Absent => 1,
        FirstAttempt::SequenceAlone | FirstAttempt::QuantityAlone | FirstAttempt::ShortUnfit => 2,
    }
}
