// A list of calls on a verification.
use crate::plans::plan_of;
use crate::wire::{Call, Reply};
use console::ChosenPlan;
use method::{Line, Plan, Question, ThreeStep, Truncated, Verdict};
use point::Level;
use std::mem::size_of;
use verification::{Inspection, Orders, Verification, Written};

type Running = Verification<ChosenPlan, ChosenPlan>;

type Standard = Verification<Truncated<Line>, ThreeStep>;

// Kinds stay numbers: they are the C interface.
impl From<Question> for Reply {
    fn from(question: Question) -> Reply {
        Reply {
            number: u32::from(question.number()),
            ..Reply::plain(0)
        }
    }
}

impl From<Level> for Reply {
    fn from(level: Level) -> Reply {
        Reply {
            value: level.tenths,
            number: level.observation.unwrap_or(0),
            soonest: level.soonest.unwrap_or(0),
            ..Reply::plain(2)
        }
    }
}

impl From<Option<Verdict>> for Reply {
    fn from(decision: Option<Verdict>) -> Reply {
        Reply::plain(match decision {
            None => 3,
            Some(Verdict::Fit) => 4,
            Some(Verdict::Unfit) => 5,
        })
    }
}

impl From<Written> for Reply {
    fn from(written: Written) -> Reply {
        let kind = match written.verdict {
            Verdict::Fit => 6,
            Verdict::Unfit => 7,
        };
        Reply {
            length: written.length,
            ..Reply::plain(kind)
        }
    }
}

fn lend(journal: &mut [u8], lent: usize) -> &mut [u8] {
    let length = journal.len().min(lent);
    &mut journal[..length]
}

fn answer<M: Plan, S: Plan>(
    running: &mut Verification<M, S>,
    call: &Call,
    journal: &mut [u8],
) -> Result<Reply, Question> {
    // the numbers of the C interface
    match call.kind {
        0 => {
            running.open(call.value, call.meter, call.reference, call.agreement)?;
            Ok(Reply::plain(1))
        }
        1 => Ok(Reply::from(running.level()?)),
        2 => Ok(Reply::from(running.code(call.value)?)),
        3 => Ok(Reply::from(running.late()?)),
        _ => Ok(Reply::from(running.close(lend(journal, call.lent), call.place)?)),
    }
}

// Each call's answer, up to the certificate. The rest of the answers stay as they are.
fn run_all<M: Plan, S: Plan>(
    mut running: Verification<M, S>,
    calls: &[Call],
    journal: &mut [u8],
    answers: &mut [Reply],
) -> usize {
    for (i, (call, reply)) in calls.iter().zip(answers.iter_mut()).enumerate() {
        if call.kind == 5 {
            match running.certify(lend(journal, call.lent), call.place) {
                Ok(written) => {
                    *reply = Reply::from(written);
                    return i + 1;
                }
                Err((question, same)) => {
                    running = same;
                    *reply = Reply::from(question);
                }
            }
        } else {
            *reply = answer(&mut running, call, journal).unwrap_or_else(Reply::from);
        }
    }
    calls.len().min(answers.len())
}

// Makes the calls on a verification that begins, if it does. Where it does not, the first answer says why and none is made.
fn run<M: Plan, S: Plan>(
    begun: Result<Verification<M, S>, Question>,
    calls: &[Call],
    journal: &mut [u8],
    answers: &mut [Reply],
) -> usize {
    match begun {
        Ok(verification) => run_all(verification, calls, journal, answers),
        Err(question) => {
            if let Some(first) = answers.first_mut() {
                *first = Reply::from(question);
            }
            0
        }
    }
}

fn begin(
    points: i32,
    control: i32,
    rule: i32,
    main: &[i32],
    short: &[i32],
) -> Result<Running, Question> {
    let main = plan_of(main)?;
    let short = plan_of(short)?;
    let orders = Orders::new(points, control, rule)?;
    Ok(Inspection::all_passed().unwrap().start(orders, main, short))
}

fn begin_standard(points: i32, control: i32, rule: i32, line: Line) -> Result<Standard, Question> {
    let main = Truncated::standard(line);
    let orders = Orders::new(points, control, rule)?;
    Ok(
        Inspection::all_passed()
            .unwrap()
            .start(orders, main, ThreeStep),
    )
}

// Makes the calls on a new verification, and answers how many were made: all, or those up to the certificate. Where a plan or
// the orders are refused, the first answer says so and none is made.
#[unsafe(no_mangle)]
pub extern "C" fn hemmertaupe_run(
    points: i32,
    control: i32,
    rule: i32,
    main: &[i32],
    short: &[i32],
    calls: &[Call],
    journal: &mut [u8],
    answers: &mut [Reply],
) -> usize {
    let begun = begin(points, control, rule, main, short);
    run(begun, calls, journal, answers)
}

// The same with a standard control as the main plan, strengthened or normal, and three-step as the short one, by their types
// and not chosen at run time.
#[unsafe(no_mangle)]
pub extern "C" fn hemmertaupe_run_standard(
    points: i32,
    control: i32,
    rule: i32,
    strengthened: bool,
    calls: &[Call],
    journal: &mut [u8],
    answers: &mut [Reply],
) -> usize {
    let line = if strengthened {
        Line::Strengthened
    } else {
        Line::Normal
    };
    let begun = begin_standard(points, control, rule, line);
    run(begun, calls, journal, answers)
}

// The bytes of a verification over any two plans.
#[unsafe(no_mangle)]
pub extern "C" fn hemmertaupe_size() -> usize {
    size_of::<Running>()
}

// The bytes of a verification over the standard plans.
#[unsafe(no_mangle)]
pub extern "C" fn hemmertaupe_size_standard() -> usize {
    size_of::<Standard>()
}
