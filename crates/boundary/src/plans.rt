// Plans as numbers: the kind, how many truncations (at most 3) and each one's cut and cut number, a table's six numbers, how
// many rows (at most 9) and each one's three. Numbers that are not there are 0.
ghost use Rattle.std.specs.Prelude.{◌+◌, ◌<◌, ◌≤◌, ◌^◌};

use crate::wire::Asked;
use console::ChosenPlan;
use method::{Line, Plan, Question, Row, TableNumbers, Tabled, ThreeStep};
use std::array::from_fn;

// Plans stay numbers here: they are the C interface.
const TRUNCATIONS_AT: usize = 2;

const TRUNCATIONS_HEARD: usize = 3;

const NUMBERS_AT: usize = 8;

const ROWS_AT: usize = 15;

const ROWS_HEARD: usize = 9;

fn word(words: &[i32], i: usize) -> i32 {
    words.get(i).copied().unwrap_or(0)
}

// How many of something the numbers say that there are, as far as they are heard.
fn count(words: &[i32], i: usize, heard: usize) -> usize
    ensures { result ≤ heard }
{
    usize::try_from(word(words, i)).unwrap_or(0).min(heard)
}

fn row_at(words: &[i32], at: usize) -> Row
    requires { at + 2 < 2 ^ 64 }
{
    Row {
        from: word(words, at),
        accept: word(words, at + 1),
        reject: word(words, at + 2),
    }
}

fn table(words: &[i32]) -> Result<Tabled, Question> {
    let numbers = TableNumbers {
        cut: word(words, NUMBERS_AT),
        cut_number: word(words, NUMBERS_AT + 1),
        margin: word(words, NUMBERS_AT + 2),
        trapezoid: word(words, NUMBERS_AT + 3),
        uniform: word(words, NUMBERS_AT + 4),
        peak: word(words, NUMBERS_AT + 5),
    };
    let rows: [Row; ROWS_HEARD] = from_fn(|i| row_at(words, ROWS_AT + 3 * i));
    let heard = count(words, NUMBERS_AT + 6, ROWS_HEARD);
    Tabled::new(&rows[..heard], numbers)
}

fn beneath(words: &[i32]) -> Result<ChosenPlan, Question> {
    match word(words, 0) {
        0 => Ok(ChosenPlan::Line(Line::Strengthened)),
        1 => Ok(ChosenPlan::Line(Line::Normal)),
        2 => Ok(ChosenPlan::standard(Line::Strengthened)),
        3 => Ok(ChosenPlan::standard(Line::Normal)),
        4 => Ok(ChosenPlan::Short(ThreeStep)),
        _ => Ok(ChosenPlan::Table(table(words)?)),
    }
}

// The plan that numbers name, made from the innermost on.
pub(crate) fn plan_of(words: &[i32]) -> Result<ChosenPlan, Question> {
    let mut plan = beneath(words)?;
    // By their places, at which the C interface has the numbers.
    for i in 0..count(words, 1, TRUNCATIONS_HEARD) {
        let at = TRUNCATIONS_AT + 2 * i;
        plan = plan.truncate(word(words, at), word(words, at + 1))?;
    }
    Ok(plan)
}

// What a plan answers at an observation.
#[unsafe(no_mangle)]
pub extern "C" fn hemmertaupe_ask(words: &[i32], i: u32, asked: &mut Asked) {
    match plan_of(words) {
        Ok(plan) => {
            *asked = Asked {
                refused: 0,
                cut: plan.cut(),
                cut_number: plan.cut_number(),
                margin: plan.margin(),
                trapezoid: plan.trapezoid_k(),
                uniform: plan.uniform_k(),
                accept: plan.accept_number(i),
                reject: plan.reject_number(i),
                offset: plan.offset(i),
            };
        }
        Err(question) => {
            asked.refused = u32::from(question.number());
        }
    }
}
