// How an attempt, a point or an instrument ends.
ghost use Rattle.method.specs.Verdicts.{fit_if, is_fit};
ghost use Rattle.std.specs.Prelude.{◌≡◌};

use std::fmt;

#[derive(Clone, Copy, PartialEq, Eq, Debug)]
pub enum Verdict {
    Fit,
    Unfit,
}

impl Verdict {
    pub fn is_fit(self) -> bool
        ensures { result ≡ is_fit self }
    {
        self == Verdict::Fit
    }
}

// Fit where the test holds.
impl From<bool> for Verdict {
    ghost from_gives = { λ test v. v ≡ fit_if test };

    fn from(test: bool) -> Verdict {
        if test { Verdict::Fit } else { Verdict::Unfit }
    }
}

impl fmt::Display for Verdict {
    fn fmt<W: fmt::Write>(&self, f: &mut fmt::Formatter<W>) -> fmt::Result {
        f.write_str(match self {
            Verdict::Fit => "fit",
            Verdict::Unfit => "unfit",
        })
    }
}
