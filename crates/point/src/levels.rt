// Levels of the signal, and the errors of codes at them.
ghost use Rattle.std.specs.Prelude.{◌≡◌, ◌≤◌, pos, ◌+ℤ◌, ◌-ℤ◌, ◌*ℤ◌, unsigned_abs};
ghost use Rattle.point.specs.Levels.{observing_level_of, settling_level_at};
ghost use Rattle.point.specs.Trials.{error_at, level_at, plan_of};

use crate::code::Code;
use crate::phase::{Carried, Control, Course, Level, PlanUsed, Trial};
use crate::plans::Plans;
use crate::setting::Setting;
use crate::trials::begins_with;
use control::soonest_fit;
use method::Plan;

fn in_tenths(code: Code) -> i32
    ensures is { result ≡ pos 10 *ℤ code }
    ensures small { unsigned_abs result ≤ 19999990 }
{
    10 * code.steps
}

fn offset_by(signal: i32, offset: i32) -> i32
    requires { (unsigned_abs signal ≤ 20000000) × (unsigned_abs offset ≤ 48) }
    ensures is { result ≡ signal +ℤ offset }
    ensures small { unsigned_abs result ≤ 20000048 }
{
    signal + offset
}

fn offset_at<P: Plan>(plan: &P, i: u32) -> i32
    ensures is { result ≡ (P.Plan.meaning plan.now).offset i }
    ensures small { unsigned_abs result ≤ 48 }
{
    plan.offset(i)
}

// The level of observation i.
fn shifted<P: Plan>(plan: &P, setting: Setting, i: u32) -> i32
    ensures is { result ≡ level_at (P.Plan.meaning plan.now) setting.signal i }
    ensures small { unsigned_abs result ≤ 20000048 }
{
    offset_by(setting.signal, offset_at(plan, i))
}

fn difference(a: i32, b: i32) -> i32
    requires { (unsigned_abs a ≤ 19999990) × (unsigned_abs b ≤ 20000048) }
    ensures { result ≡ a -ℤ b }
{
    a - b
}

// The error of a code at the level of observation i, in tenths.
pub(crate) fn error_of<P: Plan>(plan: &P, setting: Setting, i: u32, code: Code) -> i32
    ensures { result ≡ error_at (P.Plan.meaning plan.now) setting.signal i code }
{
    difference(in_tenths(code), shifted(plan, setting, i))
}

fn level_on<P: Plan>(plan: &P, trial: Trial) -> Level
    ensures { result ≡ observing_level_of (P.Plan.meaning plan.now) trial }
{
    let made = trial.tally.observations;
    Level {
        tenths: shifted(plan, trial.setting, made + 1),
        observation: Some(made + 1),
        soonest: soonest_fit(plan, made, trial.tally.outs),
    }
}

impl<M: Plan, S: Plan> Plans<M, S> {
    // What is to be set while a point settles: the main signal, whatever its size.
    pub fn settling_level(&self, control: Control, carried: Carried, signal: i32) -> Level
        ensures { result ≡ settling_level_at (M.Plan.meaning self.now.main) (S.Plan.meaning self.now.short) control carried signal }
    {
        let soonest = match begins_with(control, carried) {
            PlanUsed::Main => soonest_fit(&self.main, 0, 0),
            PlanUsed::Short => soonest_fit(&self.short, 0, 0),
        };
        Level {
            tenths: signal,
            observation: None,
            soonest,
        }
    }

    // What is to be set for the coming observation.
    pub fn observing_level(&self, trial: Trial) -> Level
        ensures { result ≡ observing_level_of (plan_of (M.Plan.meaning self.now.main) (S.Plan.meaning self.now.short) trial.course) trial }
    {
        match trial.course {
            Course::Main(_) => level_on(&self.main, trial),
            Course::Short => level_on(&self.short, trial),
        }
    }
}
