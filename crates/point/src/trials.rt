// Attempts at a point: how one begins, and one observation more.
ghost use Rattle.std.specs.Prelude.{◌≡◌, ◌≤◌, Some, None};
ghost use Rattle.std.specs.ControlFlow.{MatchControlFlow};
ghost use Rattle.point.specs.Bounds.{earlier, taken_by};
ghost use Rattle.point.specs.Trials.{begins, begun, distribution, first_trial, noted, noted_verdict};

use crate::code::Code;
use crate::levels::error_of;
use crate::phase::{Before, Carried, Control, Course, Ended, Ongoing, PlanUsed, Trial};
use crate::plans::Plans;
use crate::setting::Setting;
use control::{Distribution, NONE_YET, observed, tolerance_width};
use method::{Plan, Verdict};
use std::ops::ControlFlow;

// The reference's error is taken as uniform after a dominance, as a trapezoid otherwise.
fn distribution_after(dominance: bool) -> Distribution
    ensures { result ≡ distribution dominance }
{
    if dominance {
        Distribution::Uniform
    } else {
        Distribution::Trapezoid
    }
}

// An attempt with no observation yet. Its tolerance is fixed here, by the last dominance found.
pub(crate) fn begin<P: Plan>(
    plan: &P,
    dominance: bool,
    setting: Setting,
    settled: u32,
    course: Course,
) -> Ongoing
    requires { (settled ≤ 200) × (earlier course ≤ 48) }
    ensures { result ≡ begun (P.Plan.meaning plan.now) dominance setting settled course }
{
    let distribution = distribution_after(dominance);
    let trial = Trial {
        setting,
        settled,
        course,
        width: tolerance_width(plan, distribution, setting.meter, setting.reference),
        tally: NONE_YET,
    };
    Ongoing { trial }
}

// With which plan a point begins.
pub(crate) fn begins_with(control: Control, carried: Carried) -> PlanUsed
    ensures { result ≡ begins control carried }
{
    match control {
        Control::Full => PlanUsed::Main,
        Control::Reduced => carried.next,
    }
}

impl<M: Plan, S: Plan> Plans<M, S> {
    // A point's first attempt.
    pub(crate) fn first_attempt(
        &self,
        control: Control,
        carried: Carried,
        setting: Setting,
        settled: u32,
    ) -> Ongoing
        requires { settled ≤ 200 }
        ensures is { result ≡ first_trial (M.Plan.meaning self.now.main) (S.Plan.meaning self.now.short) control carried setting settled }
        ensures taken { taken_by result ≡ settled }
    {
        let dominance = carried.dominance;
        match begins_with(control, carried) {
            PlanUsed::Main => begin(
                &self.main,
                dominance,
                setting,
                settled,
                Course::Main(Before::Nothing),
            ),
            PlanUsed::Short => begin(&self.short, dominance, setting, settled, Course::Short),
        }
    }
}

// One observation more, and the end of the attempt if that brings it.
pub(crate) fn note<P: Plan>(
    plan: &P,
    ongoing: Ongoing,
    code: Code,
) -> ControlFlow<(Ended, Verdict), Ongoing>
    ensures { MatchControlFlow result (λ a. (a ≡ noted (P.Plan.meaning plan.now) ongoing code) × (noted_verdict (P.Plan.meaning plan.now) ongoing code ≡ None)) (λ e. (e.0 ≡ noted (P.Plan.meaning plan.now) ongoing code) × (noted_verdict (P.Plan.meaning plan.now) ongoing code ≡ Some e.1)) }
{
    let before = ongoing.trial;
    let error = error_of(plan, before.setting, before.tally.observations + 1, code);
    let (tally, verdict) = observed(plan, before.width, before.tally, error);
    let trial = Trial { tally, ..before };
    match verdict {
        None => ControlFlow::Continue(Ongoing { trial }),
        Some(verdict) => ControlFlow::Break((Ended { trial }, verdict)),
    }
}
