// A point that settles, to the end of its settling.
ghost use Rattle.std.specs.Prelude.{◌≡◌, ◌+◌};
ghost use Rattle.point.specs.Bounds.{Takes};
ghost use Rattle.point.specs.Phases.{belated, settle_step};

use crate::code::Code;
use crate::phase::{Carried, Control, Phase, Unsettled};
use crate::plans::Plans;
use control::settled_with;
use method::Plan;

impl<M: Plan, S: Plan> Plans<M, S> {
    // A settling code more. The code that ends the settling is no observation.
    pub fn settle_with(
        &self,
        control: Control,
        carried: Carried,
        point: Unsettled,
        code: Code,
    ) -> Phase
        ensures is { result ≡ settle_step (M.Plan.meaning self.now.main) (S.Plan.meaning self.now.short) control carried point code }
        ensures takes { Takes (point.codes.count + 1) result }
    {
        self.settle_with_steps(control, carried, point, code.steps)
    }

    // The same of a number of steps, which may be of any size.
    pub fn settle_with_steps(
        &self,
        control: Control,
        carried: Carried,
        point: Unsettled,
        code: i32,
    ) -> Phase
        ensures is { result ≡ settle_step (M.Plan.meaning self.now.main) (S.Plan.meaning self.now.short) control carried point code }
        ensures takes { Takes (point.codes.count + 1) result }
    {
        let setting = point.setting;
        let (codes, by) = settled_with(setting.agreement, point.codes, code);
        match by {
            None => Phase::Settling(Unsettled { setting, codes }),
            Some(_) => Phase::Observing(self.first_attempt(control, carried, setting, codes.count)),
        }
    }

    // The time for settling is over.
    pub fn settle_late(&self, control: Control, carried: Carried, point: Unsettled) -> Phase
        ensures is { result ≡ belated (M.Plan.meaning self.now.main) (S.Plan.meaning self.now.short) control carried point }
        ensures takes { Takes point.codes.count result }
    {
        Phase::Observing(self.first_attempt(control, carried, point.setting, point.codes.count))
    }
}
