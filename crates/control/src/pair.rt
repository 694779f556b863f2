// Two sequences beside each other.
ghost use Rattle.control.specs.Sequences.{sequence_under};
ghost use Rattle.control.specs.Steadiness.{Eased, NoWorse, Steady};
ghost use Rattle.std.specs.Prelude.{◌≡◌};

use crate::distribution::Distribution;
use crate::ending::Ending;
use crate::permitted::Permitted;
use crate::sequences::sequence;
use method::Plan;

#[derive(Clone, Copy, PartialEq, Eq, Debug)]
pub struct Endings {
    pub first: Option<Ending>,
    pub second: Option<Ending>,
}

// The ends of two sequences under one plan and one of its coefficients.
// Where the second's errors are nowhere larger and its tolerance is no narrower, it does no worse.
pub fn sequence_pair<P: Plan>(
    plan: &P,
    distribution: Distribution,
    first: Permitted,
    errors: &[i32],
    second: Permitted,
    smaller: &[i32],
) -> Endings
    ensures first { result.first ≡ sequence_under (P.Plan.meaning plan.now) distribution first.meter first.reference errors.now }
    ensures second { result.second ≡ sequence_under (P.Plan.meaning plan.now) distribution second.meter second.reference smaller.now }
    ensures no_worse { Eased (P.Plan.meaning plan.now) first.meter first.reference errors.now second.meter second.reference smaller.now → NoWorse result.first result.second }
    ensures steady { Steady (P.Plan.meaning plan.now) }
{
    Endings {
        first: sequence(plan, distribution, first, errors),
        second: sequence(plan, distribution, second, smaller),
    }
}
