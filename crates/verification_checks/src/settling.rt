// Points that settle, code by code: legal codes, and numbers of steps of any size.
use method::{Line, ThreeStep, Truncated};
use point::{Before, Carried, Code, Control, Course, Phase, PlanUsed, Plans, Setting, Unsettled};
use std::process::Abort;
use std::test::Fail;

// A point's first attempt: its course, its tolerance D, and how many codes the point settled with.
type First = (Course, u32, u32);

// With P 100 and E 20, D is 1,000,000 - 6,127 x 20 on the main plan and 1,000,000 - 8,000 x 20 on the short one.
const MAIN_WIDTH: u32 = 877_460;

const SHORT_WIDTH: u32 = 840_000;

const MAIN: Course = Course::Main(Before::Nothing);

// How a settling code is handed over.
#[derive(Clone, Copy)]
enum Handed {
    AsCode,
    InSteps,
}

impl Handed {
    fn settle(
        self,
        control: Control,
        next: PlanUsed,
        point: Unsettled,
        steps: i32,
    ) -> Result<Phase, Fail> {
        let plans = Plans {
            main: Truncated::standard(Line::Normal),
            short: ThreeStep,
        };
        let carried = Carried {
            dominance: false,
            next,
        };
        Ok(match self {
            Handed::AsCode => plans.settle_with(control, carried, point, Code::new(steps)?),
            Handed::InSteps => plans.settle_with_steps(control, carried, point, steps),
        })
    }

    // The first attempt of a point with that agreement, if the last of these codes settles it.
    fn first(
        self,
        control: Control,
        next: PlanUsed,
        agreement: i32,
        codes: &[i32],
    ) -> Result<Option<First>, Fail> {
        let mut phase = Phase::opened(Setting::new(0, 100, 20, agreement)?);
        for code in codes {
            phase = match phase {
                Phase::Settling(point) => self.settle(control, next, point, *code)?,
                _ => return Err("settled by an earlier code".into()),
            };
        }
        match phase {
            Phase::Settling(_) => Ok(None),
            Phase::Observing(begun) => {
                let trial = begun.trial;
                Ok(Some((trial.course, trial.width, trial.settled)))
            }
            _ => Err("neither settling nor observing".into()),
        }
    }

    // The same under full control.
    fn settles(self, agreement: i32, codes: &[i32]) -> Result<Option<First>, Fail> {
        self.first(Control::Full, PlanUsed::Main, agreement, codes)
    }
}

fn settled_by(codes: u32) -> Option<First> {
    Some((MAIN, MAIN_WIDTH, codes))
}

// 10, 11 and 12 are not all within 1 step of each other; 11, 12 and 12 are.
#[test]
fn codes_settle(rt: HostRuntime) -> Result<(), Fail> {
    let code = Handed::AsCode;
    assert_eq!(rt; code.settles(1, &[10, 11, 12])?, None);
    assert_eq!(rt; code.settles(1, &[10, 11, 12, 12])?, settled_by(4));
    assert_eq!(rt; code.settles(0, &[1_999_998, 1_999_999, 1_999_999])?, None);
    assert_eq!(rt; code.settles(0, &[-1_999_999; 3])?, settled_by(3));
    Ok(())
}

#[test]
fn steps_settle(rt: HostRuntime) -> Result<(), Fail> {
    let steps = Handed::InSteps;
    assert_eq!(rt; steps.settles(1, &[10, 11, 12])?, None);
    assert_eq!(rt; steps.settles(1, &[10, 11, 12, 12])?, settled_by(4));
    assert_eq!(rt; steps.settles(0, &[1_999_999, 2_000_000, 2_000_000])?, None);
    assert_eq!(rt; steps.settles(0, &[i32::MIN; 3])?, settled_by(3));
    Ok(())
}

// Codes that never agree settle at the 200th.
#[test]
fn the_last_code_settles(rt: HostRuntime) -> Result<(), Fail> {
    let apart = [[0, 5]; 100];
    let codes = apart.as_flattened();
    assert_eq!(rt; Handed::AsCode.settles(1, &codes[1..])?, None);
    assert_eq!(rt; Handed::AsCode.settles(1, codes)?, settled_by(200));
    Ok(())
}

// Only under reduced control does a point begin on the short plan, and only where the points before leave it so.
#[test]
fn short_points_settle(rt: HostRuntime) -> Result<(), Fail> {
    let code = Handed::AsCode;
    let codes = &[7; 3];
    assert_eq!(rt;
        code.first(Control::Reduced, PlanUsed::Short, 0, codes)?,
        Some((Course::Short, SHORT_WIDTH, 3))
    );
    assert_eq!(rt;
        code.first(Control::Reduced, PlanUsed::Main, 0, codes)?,
        settled_by(3)
    );
    assert_eq!(rt;
        code.first(Control::Full, PlanUsed::Short, 0, codes)?,
        settled_by(3)
    );
    Ok(())
}
