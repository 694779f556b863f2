// What a typed list of errors comes to, observation by observation.
use crate::line_error::LineError;
use console::{ChosenPlan, Words, next_number, parse_number};
use control::{Attempt, Distribution, Finished, Permitted, Tally, Tolerance};
use std::alloc::Global;
use std::io;
use std::ops::ControlFlow;

// The tolerance and the errors that were typed.
#[derive(Drop)]
pub struct Course {
    tolerance: Tolerance,
    errors: Vec<i32>,
}

// What differs from name to name is the table of its words.
fn next_distribution(words: &mut Words) -> Option<Distribution> {
    match words.next()? {
        b"trapezoid" => Some(Distribution::Trapezoid),
        b"uniform" => Some(Distribution::Uniform),
        _ => None,
    }
}

fn parse_errors(heap: Global, words: &mut Words) -> Result<Vec<i32>, LineError> {
    let mut errors = Vec::new(heap);
    while let Some(word) = words.next() {
        errors.push(parse_number(word).ok_or(LineError::Syntax)?)?;
    }
    Ok(errors)
}

// P E trapezoid|uniform ERROR ...
pub fn parse_course(
    heap: Global,
    plan: &ChosenPlan,
    words: &mut Words,
) -> Result<Course, LineError> {
    let meter = next_number(words).ok_or(LineError::Syntax)?;
    let reference = next_number(words).ok_or(LineError::Syntax)?;
    let distribution = next_distribution(words).ok_or(LineError::Syntax)?;
    let permitted = Permitted::new(meter, reference)?;
    Ok(Course {
        tolerance: Tolerance::new(permitted, plan, distribution),
        errors: parse_errors(heap, words)?,
    })
}

fn print_tally(rt: &impl Print, error: i32, tally: Tally) -> io::Result<()> {
    let n = tally.observations;
    let x = tally.outs;
    print!(rt; "  {n:>11}  {error:>6}  {x:>4}  ")
}

fn print_end(rt: &impl Print, finished: &Finished) -> io::Result<()> {
    let verdict = finished.verdict();
    let quantity = finished.quantity();
    let tally = finished.tally();
    let sum = tally.sum;
    let squares = tally.squares;
    println!(rt; "{verdict}")?;
    println!(rt; "quantity control {quantity}: S {sum}, Q {squares}")
}

// The observations up to the end of the attempt, or as far as the errors go.
pub fn print_course(rt: &impl Print, plan: &ChosenPlan, course: &Course) -> io::Result<()> {
    let width = course.tolerance.width();
    println!(rt; "tolerance D {width}")?;
    println!(rt; "  observation   error  outs  sequence")?;
    let mut attempt = Attempt::new(course.tolerance);
    for error in course.errors.as_slice() {
        match attempt.observe(plan, *error) {
            ControlFlow::Continue(next) => {
                print_tally(rt, *error, next.tally())?;
                println!(rt; "goes on")?;
                attempt = next;
            }
            ControlFlow::Break(finished) => {
                print_tally(rt, *error, finished.tally())?;
                return print_end(rt, &finished);
            }
        }
    }
    println!(rt; "not ended")
}
