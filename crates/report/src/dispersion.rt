// The numbers of an attempt of which a deviation can be estimated.
ghost use Rattle.std.specs.Prelude.{◌≤◌};

// N, the size of S, and V = N Q - S S.
#[derive(Clone, Copy)]
pub(crate) struct Dispersion {
    pub(crate) observations: u32,
    pub(crate) size: u64,
    pub(crate) spread: u64,
    ghost two: { 2 ≤ observations },
    ghost few: { observations ≤ 48 },
    ghost small: { size ≤ 96000 },
    ghost narrow: { spread ≤ 9216000000 },
}
