// Rounding of what has a root in it, in whole numbers alone.
ghost use Rattle.std.specs.Prelude.{◌≡◌, ◌≤◌};
ghost use Rattle.report.specs.Rounding.{Rounded};

// The nearest whole number to (a + √(p / q)) / n; a half is rounded up.
pub(crate) fn rounded(n: u64, a: u64, p: u64, q: u64) -> u64
    requires n_some { 1 ≤ n }
    requires n_high { n ≤ 4294967296 }
    requires a_high { a ≤ 1099511627776 }
    requires p_high { p ≤ 1152921504606846976 }
    requires q_some { 1 ≤ q }
    ensures { Rounded n a p q result }
{
    // A whole number is at most 2 √(p / q) exactly if it is at most this one.
    let root = (4 * p / q).isqrt();
    (2 * a + root + n) / (2 * n)
}
