// What a plan says at an observation with a number of outs.
ghost use Rattle.norms.specs.Zones.{between_lines, zone_at};
ghost use Rattle.std.specs.Prelude.{◌≡◌};

use method::Plan;
use std::fmt;

#[derive(Clone, Copy, PartialEq, Eq, Debug)]
pub enum Zone {
    Fit,
    GoOn,
    Unfit,
    // fit if the observation is in tolerance, unfit if it is out
    Either,
}

// As the card draws it.
impl fmt::Display for Zone {
    fn fmt<W: fmt::Write>(&self, f: &mut fmt::Formatter<W>) -> fmt::Result {
        f.write_str(match self {
            Zone::Fit => "+",
            Zone::GoOn => ".",
            Zone::Unfit => "#",
            Zone::Either => "*",
        })
    }
}

// The zone of observation i with x out by then.
pub fn zone_of<P: Plan>(plan: &P, i: u32, x: u32) -> Zone
    ensures { result ≡ zone_at (P.Plan.meaning plan.now) i x }
{
    let accepts = i64::from(x) <= i64::from(plan.accept_number(i));
    let rejects = x >= plan.reject_number(i);
    match (accepts, rejects) {
        (true, true) => Zone::Either,
        (true, false) => Zone::Fit,
        (false, true) => Zone::Unfit,
        (false, false) => past_lines(plan, i, x),
    }
}

// The zone between the lines.
fn past_lines<P: Plan>(plan: &P, i: u32, x: u32) -> Zone
    ensures { result ≡ between_lines (P.Plan.meaning plan.now) i x }
{
    if i < plan.cut() {
        Zone::GoOn
    } else if x <= plan.cut_number() {
        Zone::Fit
    } else {
        Zone::Unfit
    }
}
