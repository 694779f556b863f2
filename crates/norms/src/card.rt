// The card of norms of one plan.
ghost use Rattle.std.specs.Prelude.{◌≤◌};

use crate::zone::zone_of;
use control::soonest_fit;
use method::Plan;
use std::io;

// The card: the plan's numbers, a line for each observation, the zones, and the soonest fit.
pub fn print_card<P: Plan>(rt: &impl Print, plan: &P) -> io::Result<()> {
    print_numbers(rt, plan)?;
    for i in 1..=plan.cut() {
        print_observation(rt, plan, i)?;
    }
    print_zones(rt, plan)?;
    let soonest = soonest_fit(plan, 0, 0).unwrap_or(0);
    println!(rt; "soonest fit, all in tolerance: {soonest}")
}

fn print_numbers<P: Plan>(rt: &impl Print, plan: &P) -> io::Result<()> {
    let cut = plan.cut();
    let cut_number = plan.cut_number();
    let margin = plan.margin();
    let trapezoid = plan.trapezoid_k();
    let uniform = plan.uniform_k();
    println!(rt;
        "cut {cut}, cut number {cut_number}, margin {margin}, K trapezoid {trapezoid}, K uniform {uniform}"
    )?;
    println!(rt; "  observation  accept  reject  offset")
}

fn print_observation<P: Plan>(rt: &impl Print, plan: &P, i: u32) -> io::Result<()> {
    let reject = plan.reject_number(i);
    let offset = plan.offset(i);
    let accept = plan.accept_number(i);
    if accept < 0 {
        println!(rt; "  {i:>11}       -  {reject:>6}  {offset:>6}")
    } else {
        println!(rt; "  {i:>11}  {accept:>6}  {reject:>6}  {offset:>6}")
    }
}

// The most outs worth drawing: just past the lines and the cut number.
fn most_outs<P: Plan>(plan: &P) -> u32
    ensures { result ≤ 49 }
{
    let cut = plan.cut();
    let mut most = plan.cut_number() + 1;
    for i in 1..=cut {
        let reject = plan.reject_number(i);
        if reject <= cut {
            most = most.max(reject);
        }
    }
    most
}

fn print_zones<P: Plan>(rt: &impl Print, plan: &P) -> io::Result<()> {
    println!(rt; "  outs   + fit   . go on   # unfit   * as the observation is")?;
    for x in (0..=most_outs(plan)).rev() {
        print_level(rt, plan, x)?;
    }
    print_axis(rt, plan.cut())
}

// The zones at x out, from the first observation to the cut.
fn print_level<P: Plan>(rt: &impl Print, plan: &P, x: u32) -> io::Result<()> {
    print!(rt; "  {x:>4} ")?;
    for i in 1..=plan.cut() {
        let zone = zone_of(plan, i, x);
        print!(rt; "{zone}")?;
    }
    println!(rt; "")
}

// Every fifth observation under its column.
fn print_axis(rt: &impl Print, cut: u32) -> io::Result<()> {
    print!(rt; "       ")?;
    for i in (5..=cut).step_by(5) {
        print!(rt; "{i:>5}")?;
    }
    println!(rt; "")
}
