// A verification under way. What holds of it between calls is in its type.
use crate::declared::Declared;
use crate::progress::Progress;
use method::Plan;
use point::Plans;
use std::marker::Model;

// Over a main and a short plan. Only orders after three passed signals make one.
#[derive(Drop)]
pub struct Verification<M: Plan, S: Plan> {
    pub(crate) plans: Plans<M, S>,
    pub(crate) declared: Declared,
    pub(crate) progress: Progress,
}

impl<M: Plan, S: Plan> Model for Verification<M, S> {
    ghost use Rattle.verification.specs.Standings.{Consistent, Standing};

    ghost Value = { Standing M S };

    ghost view = { λ v. record { main = v.plans.main; short = v.plans.short; declared = v.declared; progress = v.progress } };

    ghost invariant = { λ v. Consistent v.declared v.progress };
}
