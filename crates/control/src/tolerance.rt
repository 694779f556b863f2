// The tolerance that the permitted errors leave an observation under a plan.
ghost use Rattle.std.specs.Prelude.{◌≡◌, ◌*◌, ◌≤◌};
ghost use Rattle.control.specs.Tolerances.{Permits, coefficient, tolerance_under, tolerance_with};

use crate::distribution::Distribution;
use crate::permitted::Permitted;
use method::Plan;
use method::measures::SCALE;

// D, in ten-thousandths of a tenth.
#[derive(Clone, Copy, PartialEq, Eq, Debug)]
pub struct Tolerance {
    pub(crate) width: u32,
    ghost some: { 1 ≤ width },
    ghost high: { width ≤ 10000000 },
}

// The plan's coefficient K for a distribution.
fn coefficient_of<P: Plan>(plan: &P, distribution: Distribution) -> u32
    ensures is { result ≡ coefficient (P.Plan.meaning plan.now) distribution }
    ensures high { result ≤ 9999 }
{
    match distribution {
        Distribution::Trapezoid => plan.trapezoid_k(),
        Distribution::Uniform => plan.uniform_k(),
    }
}

// D = 10,000 P - K E under a plan, from permitted errors that were accepted.
pub fn tolerance_width<P: Plan>(
    plan: &P,
    distribution: Distribution,
    meter: u32,
    reference: u32,
) -> u32
    requires permits { Permits meter reference }
    ensures is { result ≡ tolerance_under (P.Plan.meaning plan.now) distribution meter reference }
    ensures some { 1 ≤ result }
    ensures high { result ≤ 10000000 }
{
    SCALE * meter - coefficient_of(plan, distribution) * reference
}

impl Tolerance {
    pub fn new<P: Plan>(permitted: Permitted, plan: &P, distribution: Distribution) -> Tolerance
        ensures { result.width ≡ tolerance_under (P.Plan.meaning plan.now) distribution permitted.meter permitted.reference }
    {
        Tolerance {
            width: tolerance_width(plan, distribution, permitted.meter, permitted.reference),
        }
    }

    pub fn width(&self) -> u32
        ensures { result ≡ self.now.width }
    {
        self.width
    }
}
