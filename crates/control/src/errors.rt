// Errors, in tenths, and how they count.
ghost use Rattle.std.specs.Prelude.{◌≡◌, ◌*◌, ◌≤◌, unsigned_abs};
ghost use Rattle.control.specs.Errors.{counted, is_wild};
ghost use Rattle.control.specs.Tolerances.{in_tolerance};

use method::measures::{SCALE, WILD};

pub(crate) fn is_wild(error: i32) -> bool
    ensures { result ≡ is_wild error }
{
    !(-WILD..=WILD).contains(&error)
}

// The error as it counts: a wild one is cut to the largest size, with its sign.
pub(crate) fn as_counted(error: i32) -> i32
    ensures is { result ≡ counted error }
    ensures small { unsigned_abs result ≤ 2000 }
{
    error.clamp(-WILD, WILD)
}

pub(crate) fn counted_size(error: i32) -> u32
    ensures is { result ≡ unsigned_abs (counted error) }
    ensures small { result ≤ 2000 }
{
    as_counted(error).unsigned_abs()
}

pub(crate) fn counted_square(error: i32) -> u32
    ensures is { result ≡ unsigned_abs (counted error) * unsigned_abs (counted error) }
    ensures small { result ≤ 4000000 }
{
    let size = counted_size(error);
    size * size
}

// Whether an error is in tolerance under a plan's margin.
pub(crate) fn is_in_tolerance(margin: u32, width: u32, error: i32) -> bool
    requires { margin ≤ 100000 }
    ensures { result ≡ in_tolerance margin width error }
{
    SCALE * counted_size(error) + margin <= width
}
