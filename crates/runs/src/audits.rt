// One list of calls under the two stop rules.
ghost use Rattle.method.specs.Refusals.{refused_by};
ghost use Rattle.runs.specs.Audits.{Sparing, audited, audited_bytes};
ghost use Rattle.runs.specs.Laws.{Laws};
ghost use Rattle.std.specs.Prelude.{◌≡◌, length, pos, is_ok, IfOk, if◌then◌else◌};
ghost use Rattle.verification.specs.Ordering.{as_declared, orders_refusal};

use crate::answer::Answer;
use crate::call::Call;
use crate::lists::run;
use crate::outcome::Audit;
use method::{Plan, Question};
use verification::{Orders, Ready};

// The orders of an audit: alike but for the stop rule. They are numbers, as orders ask whether a kind is known.
fn both_orders(points: i32, control: i32) -> Result<(Orders, Orders), Question>
    ensures refuses { refused_by result ≡ orders_refusal points control (pos 1) }
    ensures makes { IfOk result (λ o. (o.0.declared ≡ as_declared points control (pos 1)) × (o.1.declared ≡ as_declared points control (pos 2))) }
{
    let first_unfit = Orders::new(points, control, 1)?;
    let all_points = Orders::new(points, control, 2)?;
    Ok((first_unfit, all_points))
}

// What one list comes to under each stop rule, on two new verifications that are alike but for it: what ending at the
// first unfit point would have saved. The scratch buffer is lent to one run and then to the other.
pub fn audit<M: Plan, S: Plan>(
    first: Ready,
    second: Ready,
    points: i32,
    control: i32,
    main: M,
    short: S,
    calls: &[Call],
    scratch: &mut [u8],
    place: usize,
) -> Result<Audit, Question>
    ensures refuses { refused_by result ≡ orders_refusal points control (pos 1) }
    ensures makes { IfOk result (λ a. a ≡ audited (M.Plan.meaning main) (S.Plan.meaning short) points control (length scratch.old) place calls.now) }
    ensures bytes { scratch.new ≡ (if is_ok result then audited_bytes (M.Plan.meaning main) (S.Plan.meaning short) points control place calls.now scratch.old else scratch.old) }
    ensures sparing { IfOk result Sparing }
    ensures laws { Laws (M.Plan.meaning main) (S.Plan.meaning short) }
{
    let (stopping, going) = both_orders(points, control)?;
    let mut none: [Answer; 0] = [];
    let first_unfit = run(
        first, stopping, main, short, calls, &mut none, scratch, place,
    );
    let all_points = run(second, going, main, short, calls, &mut none, scratch, place);
    Ok(Audit {
        first_unfit,
        all_points,
    })
}
