// Plans by name, by table and by truncation, as they are typed.
use crate::chosen::ChosenPlan;
use crate::number::{next_number, parse_number};
use crate::plan_name::{PlanName, name_plan};
use crate::words::Words;
use arrayvec::ArrayVec;
use method::measures::ROWS_MAX;
use method::{Line, Question, Row, TableNumbers, Tabled, ThreeStep};

// Why words make no plan.
#[derive(Clone, Copy, PartialEq, Eq, Debug)]
pub enum PlanError {
    Syntax,
    Refused(Question),
}

// By hand: thiserror's `#[from]` is for an error that is printed as it stands, which this one is not.
impl From<Question> for PlanError {
    fn from(q: Question) -> PlanError {
        PlanError::Refused(q)
    }
}

// Truncations of truncations beyond this are no plan.
const DEPTH_MAX: u32 = 16;

// One row more than a table may have: the rest would be refused alike.
const ROWS_HEARD: usize = ROWS_MAX + 1;

// The plan that all the words left of a line name.
pub fn parse_plan(words: &mut Words) -> Result<ChosenPlan, PlanError> {
    let plan = parse_within(DEPTH_MAX, words)?;
    if words.next().is_none() {
        Ok(plan)
    } else {
        Err(PlanError::Syntax)
    }
}

// An inner plan is made, and refused, before the truncation over it.
fn parse_within(depth: u32, words: &mut Words) -> Result<ChosenPlan, PlanError> {
    match words.next().and_then(name_plan) {
        Some(PlanName::Strengthened) => Ok(ChosenPlan::standard(Line::Strengthened)),
        Some(PlanName::Normal) => Ok(ChosenPlan::standard(Line::Normal)),
        Some(PlanName::ThreeStep) => Ok(ChosenPlan::Short(ThreeStep)),
        Some(PlanName::LineStrengthened) => Ok(ChosenPlan::Line(Line::Strengthened)),
        Some(PlanName::LineNormal) => Ok(ChosenPlan::Line(Line::Normal)),
        Some(PlanName::Tabled) => parse_table(words),
        Some(PlanName::Truncated) if depth > 0 => {
            let cut = plan_number(words)?;
            let cut_number = plan_number(words)?;
            Ok(parse_within(depth - 1, words)?.truncate(cut, cut_number)?)
        }
        _ => Err(PlanError::Syntax),
    }
}

// The next word as one of a plan's numbers.
fn plan_number(words: &mut Words) -> Result<i32, PlanError> {
    next_number(words).ok_or(PlanError::Syntax)
}

fn parse_table(words: &mut Words) -> Result<ChosenPlan, PlanError> {
    let numbers = TableNumbers {
        cut: plan_number(words)?,
        cut_number: plan_number(words)?,
        margin: plan_number(words)?,
        trapezoid: plan_number(words)?,
        uniform: plan_number(words)?,
        peak: plan_number(words)?,
    };
    let mut rows = ArrayVec::<Row, ROWS_HEARD>::new();
    while let Some(word) = words.next() {
        let row = parse_row(word).ok_or(PlanError::Syntax)?;
        let _ = rows.try_push(row);
    }
    let table = Tabled::new(rows.as_slice(), numbers)?;
    Ok(ChosenPlan::Table(table))
}

// FROM:ACCEPT:REJECT
fn parse_row(word: &[u8]) -> Option<Row> {
    let (from, behind) = at_colon(word)?;
    let (accept, reject) = at_colon(behind)?;
    Some(Row {
        from: parse_number(from)?,
        accept: parse_number(accept)?,
        reject: parse_number(reject)?,
    })
}

// What stands before and behind the first colon.
fn at_colon(word: &[u8]) -> Option<(&[u8], &[u8])> {
    let colon = word.iter().position(|b| *b == b':')?;
    Some((&word[..colon], &word[colon + 1..]))
}
