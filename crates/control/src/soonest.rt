// The soonest observation at which an attempt could end fit.
ghost use Rattle.control.specs.Prospects.{Foretells, could_end, soonest_fit};
ghost use Rattle.std.specs.Prelude.{◌≡◌};

use method::Plan;

// Whether an observation i in tolerance would end an attempt with x out.
fn could_end_fit<P: Plan>(plan: &P, x: u32, i: u32) -> bool
    ensures { result ≡ could_end (P.Plan.meaning plan.now) x i }
{
    i64::from(x) <= i64::from(plan.accept_number(i)) || i == plan.cut() && x <= plan.cut_number()
}

// The least observation after n, up to the cut, at which an attempt with x out could end fit if all to come are in tolerance.
pub fn soonest_fit<P: Plan>(plan: &P, n: u32, x: u32) -> Option<u32>
    ensures is { result ≡ soonest_fit (P.Plan.meaning plan.now) n x }
    ensures foretells { Foretells (P.Plan.meaning plan.now) n x result }
{
    // `..=` was tried: the library does not say what `find` finds in it
    (n.saturating_add(1)..plan.cut() + 1).find(|&i| could_end_fit(plan, x, i))
}
