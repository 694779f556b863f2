// A plan of control: what it answers at each observation.
ghost use Rattle.method.specs.Meaning.{Meaning, Ranged, peaked, within};
ghost use Rattle.std.specs.Prelude.{◌≡◌, ◌≤◌};

// A plan's answers depend on the observation number alone, and are the same each time.
pub trait Plan: Copy {
    ghost meaning: { Self → Meaning };

    // The last observation that an attempt may have.
    fn cut(&self) -> u32
        ensures { result ≡ (meaning self.now).cut };

    // How many outs an attempt that comes to the cut may have.
    fn cut_number(&self) -> u32
        ensures { result ≡ (meaning self.now).cut_number };

    // In tolerance at observation i, the attempt is fit with at most this many out; -1 for never: it is below every count, so
    // that the comparison with it needs no case for never.
    fn accept_number(&self, i: u32) -> i32
        ensures { result ≡ (meaning self.now).accept i };

    // Out of tolerance at observation i, the attempt is unfit with at least this many out.
    fn reject_number(&self, i: u32) -> u32
        ensures { result ≡ (meaning self.now).reject i };

    // How many tenths the signal of observation i is shifted.
    fn offset(&self, i: u32) -> i32
        ensures { result ≡ (meaning self.now).offset i };

    // What is added to an error's size before it is held to the tolerance.
    fn margin(&self) -> u32
        ensures { result ≡ (meaning self.now).margin };

    // The share of the reference's error that a trapezoid distribution takes from the tolerance.
    fn trapezoid_k(&self) -> u32
        ensures { result ≡ (meaning self.now).trapezoid };

    // The same of a uniform distribution.
    fn uniform_k(&self) -> u32
        ensures { result ≡ (meaning self.now).uniform };

    ghost ranged: { (p : Self) → Ranged (meaning p) };
}

// Whether i is an observation of a plan with that cut.
pub(crate) fn is_within(cut: u32, i: u32) -> bool
    ensures { result ≡ within cut i }
{
    (1..=cut).contains(&i)
}

// An offset that rises by a tenth to its peak p at observation 2p, and falls again. By `as`, since i32 has no From of a u32.
pub(crate) fn peaked_offset(p: u32, i: u32) -> i32
    requires low { p ≤ 24 }
    requires early { i ≤ 48 }
    ensures { result ≡ peaked p i }
{
    p as i32 - (2 * p).abs_diff(i) as i32
}
