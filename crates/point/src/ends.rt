// What the end of an attempt means for its point.
ghost use Rattle.std.specs.Prelude.{◌≡◌, ◌+◌, ◌≤◌};
ghost use Rattle.point.specs.Bounds.{Takes, made_before, taken_by};
ghost use Rattle.point.specs.Ends.{another, attempt_end, decided, first_full, leaves, left_by, main_end, next_after, second_full, short_end};
ghost use Rattle.point.specs.Phases.{led_to, observe_on};
ghost use Rattle.point.specs.Trials.{plan_of};

use crate::code::Code;
use crate::phase::{Before, Carried, Control, Course, Ended, Ongoing, Outcome, Phase, PlanUsed};
use crate::plans::Plans;
use crate::trials::{begin, note};
use control::{is_dominant, quantity_control};
use method::{Plan, Verdict};
use std::ops::ControlFlow;

// A main attempt after an earlier one. The point does not settle again.
fn retry<M: Plan>(main: &M, dominance: bool, ended: Ended, before: Before) -> Phase
    requires { made_before before ≤ 48 }
    ensures { result ≡ another (M.Plan.meaning main.now) dominance ended before }
{
    let earlier = ended.trial;
    Phase::Observing(begin(
        main,
        dominance,
        earlier.setting,
        earlier.settled,
        Course::Main(before),
    ))
}

fn decide(
    ended: Ended,
    sequence: Verdict,
    quantity: Option<Verdict>,
    dominance: bool,
    verdict: Verdict,
) -> Phase
    ensures { result ≡ decided ended sequence quantity dominance verdict }
{
    Phase::Decided(Outcome {
        trial: ended,
        sequence,
        quantity,
        dominance,
        verdict,
    })
}

// A first attempt under full control: sequence and quantity control agree, or a second attempt follows.
fn first_full<M: Plan>(main: &M, ended: Ended, dominance: bool, v: Verdict, q: Verdict) -> Phase
    ensures { result ≡ first_full (M.Plan.meaning main.now) ended dominance v q }
{
    let made = ended.trial.tally.observations;
    match (v, q) {
        (Verdict::Fit, Verdict::Fit) => decide(ended, v, Some(q), dominance, Verdict::Fit),
        (Verdict::Fit, Verdict::Unfit) => retry(
            main,
            dominance,
            ended,
            Before::SequenceAlone(made),
        ),
        (Verdict::Unfit, Verdict::Fit) => retry(
            main,
            dominance,
            ended,
            Before::QuantityAlone(made),
        ),
        (Verdict::Unfit, Verdict::Unfit) => decide(ended, v, Some(q), dominance, Verdict::Unfit),
    }
}

// A second attempt under full control: fit only if both controls are.
fn second_full(ended: Ended, dominance: bool, v: Verdict, q: Verdict) -> Phase
    ensures { result ≡ second_full ended dominance v q }
{
    let both = Verdict::from(v.is_fit() && q.is_fit());
    decide(ended, v, Some(q), dominance, both)
}

// The end of a main attempt, which finds the dominance anew.
fn main_end<M: Plan>(main: &M, control: Control, before: Before, ended: Ended, v: Verdict) -> Phase
    ensures { result ≡ main_end (M.Plan.meaning main.now) control before ended v }
{
    let dominance = is_dominant(ended.trial.tally);
    match control {
        Control::Reduced => decide(ended, v, None, dominance, v),
        Control::Full => {
            let q = quantity_control(ended.trial.tally, ended.trial.width);
            match before {
                Before::Nothing => first_full(main, ended, dominance, v, q),
                _ => second_full(ended, dominance, v, q),
            }
        }
    }
}

// The end of a short attempt, which leaves the dominance as it was.
fn short_end<M: Plan>(main: &M, dominance: bool, ended: Ended, v: Verdict) -> Phase
    ensures { result ≡ short_end (M.Plan.meaning main.now) dominance ended v }
{
    match v {
        Verdict::Fit => decide(ended, v, None, dominance, v),
        Verdict::Unfit => {
            let made = ended.trial.tally.observations;
            retry(main, dominance, ended, Before::ShortUnfit(made))
        }
    }
}

fn conclude<M: Plan>(main: &M, control: Control, dominance: bool, ended: Ended, v: Verdict) -> Phase
    ensures { result ≡ attempt_end (M.Plan.meaning main.now) control dominance ended.course ended v }
{
    match ended.trial.course {
        Course::Main(before) => main_end(main, control, before, ended, v),
        Course::Short => short_end(main, dominance, ended, v),
    }
}

// One observation more on the plan that the attempt runs on.
fn observe_on<P: Plan, M: Plan>(
    plan: &P,
    main: &M,
    control: Control,
    dominance: bool,
    ongoing: Ongoing,
    code: Code,
) -> ControlFlow<Phase, Ongoing>
    ensures { led_to result ≡ observe_on (P.Plan.meaning plan.now) (M.Plan.meaning main.now) control dominance ongoing code }
{
    // Not `map_break`, which keeps what goes on in memory: with it each code took twice the time.
    match note(plan, ongoing, code) {
        ControlFlow::Continue(after) => ControlFlow::Continue(after),
        ControlFlow::Break((after, v)) => {
            ControlFlow::Break(conclude(main, control, dominance, after, v))
        }
    }
}

impl<M: Plan, S: Plan> Plans<M, S> {
    // One observation more: the attempt goes on, or what its end means for the point.
    pub fn observe(
        &self,
        control: Control,
        dominance: bool,
        ongoing: Ongoing,
        code: Code,
    ) -> ControlFlow<Phase, Ongoing>
        ensures is { led_to result ≡ observe_on (plan_of (M.Plan.meaning self.now.main) (S.Plan.meaning self.now.short) ongoing.course) (M.Plan.meaning self.now.main) control dominance ongoing code }
        ensures takes { Takes (taken_by ongoing + 1) (led_to result) }
    {
        let main = &self.main;
        match ongoing.trial.course {
            Course::Main(_) => observe_on(main, main, control, dominance, ongoing, code),
            Course::Short => observe_on(&self.short, main, control, dominance, ongoing, code),
        }
    }
}

// With which plan the next point begins under reduced control.
fn plan_after(course: Course, dominance: bool) -> PlanUsed
    ensures { result ≡ next_after course dominance }
{
    match course {
        Course::Short => PlanUsed::Short,
        Course::Main(Before::ShortUnfit(_)) => PlanUsed::Main,
        Course::Main(_) => {
            if dominance {
                PlanUsed::Short
            } else {
                PlanUsed::Main
            }
        }
    }
}

impl Carried {
    // What a point passes on whose last attempt ran so, with the dominance then.
    pub fn after(course: Course, dominance: bool) -> Carried
        ensures { result ≡ left_by course dominance }
    {
        Carried {
            dominance,
            next: plan_after(course, dominance),
        }
    }
}

impl Outcome {
    // What a decided point passes on to the next.
    pub fn passed_on(&self) -> Carried
        ensures { result ≡ leaves self.now }
    {
        Carried::after(self.trial.trial.course, self.dominance)
    }
}
