// One observation of an attempt, on plain numbers.
ghost use Rattle.std.specs.Prelude.{◌≡◌, ◌+◌, ◌<◌, ◌≤◌, ◌+ℤ◌, None, unsigned_abs};
ghost use Rattle.control.specs.Attempts.{Sound, added, tally_after, verdict_at, verdict_of};
ghost use Rattle.control.specs.Errors.{counted};

use crate::errors::{as_counted, counted_square, is_in_tolerance, is_wild};
use crate::tally::Tally;
use method::{Plan, Verdict};

// The numbers with one error more, and x out.
fn tally_with(tally: Tally, x: u32, error: i32) -> Tally
    requires sound { Sound tally }
    requires room { tally.observations < 48 }
    requires few { x ≤ tally.outs + 1 }
    ensures is { result ≡ added tally x error }
    ensures sound { Sound result }
{
    Tally {
        observations: tally.observations + 1,
        outs: x,
        sum: tally.sum + as_counted(error),
        squares: tally.squares + counted_square(error),
        wild: tally.wild || is_wild(error),
    }
}

// What the plan says at observation n, in tolerance or not, with x out.
fn verdict_at<P: Plan>(plan: &P, n: u32, x: u32, inside: bool) -> Option<Verdict>
    ensures is { result ≡ verdict_at (P.Plan.meaning plan.now) n x inside }
    ensures room { result ≡ None → n < 48 }
{
    if inside && i64::from(x) <= i64::from(plan.accept_number(n)) {
        Some(Verdict::Fit)
    } else if !inside && x >= plan.reject_number(n) {
        Some(Verdict::Unfit)
    } else {
        (plan.cut() <= n).then(|| Verdict::from(x <= plan.cut_number()))
    }
}

// An attempt's numbers with one error more, and the attempt's end if that brings it.
pub fn observed<P: Plan>(plan: &P, width: u32, tally: Tally, error: i32) -> (Tally, Option<Verdict>)
    requires sound { Sound tally }
    requires room { tally.observations < 48 }
    ensures tally { result.0 ≡ tally_after (P.Plan.meaning plan.now) width tally error }
    ensures verdict { result.1 ≡ verdict_of (P.Plan.meaning plan.now) width tally error }
    ensures sound { Sound result.0 }
    ensures count { result.0.observations ≡ tally.observations + 1 }
    ensures room { result.1 ≡ None → result.0.observations < 48 }
{
    let inside = is_in_tolerance(plan.margin(), width, error);
    let after = tally_with(tally, tally.outs + u32::from(!inside), error);
    let verdict = verdict_at(plan, after.observations, after.outs, inside);
    (after, verdict)
}
