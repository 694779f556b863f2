// What a field can hold: a value and the number that stands for it.
ghost use Rattle.journal.specs.Codes.{first_back, first_code, first_of, flag_back, flag_code, flag_of, quantity_back, quantity_code, quantity_of, signal_back, signal_code, signal_of, verdict_back, verdict_code, verdict_of};
ghost use Rattle.std.specs.Prelude.{◌≡◌, ℤ, refl};

use crate::codes::{FirstAttempt, Quantity, Signal};
use method::Verdict;

pub(crate) trait Coded: Sized {
    ghost code_of: { Self → ℤ };

    ghost value_of: { ℤ → Self };

    fn code(self) -> i32
        ensures { result ≡ code_of self };

    // The value of a code in the field's range; whether a code is in it was asked when it was taken.
    fn of(code: i32) -> Self
        ensures { result ≡ value_of code };

    ghost back: { (x : Self) → value_of (code_of x) ≡ x };
}

impl Coded for i32 {
    ghost code_of = { λ x. x };

    ghost value_of = { λ z. z };

    ghost back = { λ x. refl };

    fn code(self) -> i32 {
        self
    }

    fn of(code: i32) -> i32 {
        code
    }
}

impl Coded for bool {
    ghost code_of = { flag_code };

    ghost value_of = { flag_of };

    ghost back = { flag_back };

    fn code(self) -> i32 {
        i32::from(self)
    }

    fn of(code: i32) -> bool {
        code == 1
    }
}

impl Coded for Verdict {
    ghost code_of = { verdict_code };

    ghost value_of = { verdict_of };

    ghost back = { verdict_back };

    fn code(self) -> i32 {
        i32::from(self.is_fit())
    }

    fn of(code: i32) -> Verdict {
        Verdict::from(code == 1)
    }
}

impl Coded for FirstAttempt {
    ghost code_of = { first_code };

    ghost value_of = { first_of };

    ghost back = { first_back };

    fn code(self) -> i32 {
        i32::from(self)
    }

    fn of(code: i32) -> FirstAttempt {
        FirstAttempt::try_from(code).unwrap_or(FirstAttempt::Absent)
    }
}

impl Coded for Quantity {
    ghost code_of = { quantity_code };

    ghost value_of = { quantity_of };

    ghost back = { quantity_back };

    fn code(self) -> i32 {
        i32::from(self)
    }

    fn of(code: i32) -> Quantity {
        Quantity::try_from(code).unwrap_or(Quantity::NotAsked)
    }
}

impl Coded for Signal {
    ghost code_of = { signal_code };

    ghost value_of = { signal_of };

    ghost back = { signal_back };

    fn code(self) -> i32 {
        i32::from(self)
    }

    fn of(code: i32) -> Signal {
        Signal::try_from(code).unwrap_or(Signal::Inspection)
    }
}
