// An attempt's sequence over a list of errors.
ghost use Rattle.std.specs.Prelude.{◌≡◌};
ghost use Rattle.control.specs.Sequences.{EndsByCut, EndsFirst, sequence_under};
ghost use Rattle.control.specs.Tolerances.{tolerance_under};

use crate::attempt::Attempt;
use crate::distribution::Distribution;
use crate::ending::Ending;
use crate::permitted::Permitted;
use crate::tolerance::Tolerance;
use method::Plan;

// Where and how an attempt's sequence over these errors ends, if they bring it to its end.
pub fn sequence<P: Plan>(
    plan: &P,
    distribution: Distribution,
    permitted: Permitted,
    errors: &[i32],
) -> Option<Ending>
    ensures is { result ≡ sequence_under (P.Plan.meaning plan.now) distribution permitted.meter permitted.reference errors.now }
    ensures first { EndsFirst (P.Plan.meaning plan.now) (tolerance_under (P.Plan.meaning plan.now) distribution permitted.meter permitted.reference) errors.now result }
    ensures by_cut { EndsByCut (P.Plan.meaning plan.now) errors.now result }
{
    let tolerance = Tolerance::new(permitted, plan, distribution);
    Attempt::over(plan, tolerance, errors)
        .break_value()
        .map(|finished| Ending {
            verdict: finished.verdict,
            at: finished.tally.observations,
        })
}
