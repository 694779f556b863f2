// Prints the card of norms of each plan that is typed, one plan to a line, or what a list of errors behind it comes to.
#![tactic(auto)]

ghost use Rattle.std.specs.Prelude.{◌≤◌, length};

mod card;
mod course;
mod line_error;
mod zone;

use card::print_card;
use console::{ChosenPlan, Words, parse_plan, same_word};
use course::{Course, parse_course, print_course};
use line_error::LineError;
use std::alloc::Global;
use std::io;
use std::io::{BufRead, BufReader};

// The plan that a line names, and the list of errors behind it, if there is one.
#[derive(Drop)]
struct Asked {
    plan: ChosenPlan,
    course: Option<Course>,
}

// The length of what stands before the word `errors`, or of the whole line where there is none.
fn before_errors(line: &[u8]) -> usize
    ensures { result ≤ length line.now }
{
    let mut words = Words::new(line);
    let mut left = line.len();
    while let Some(word) = words.next() {
        if same_word(word, b"errors") {
            return line.len().saturating_sub(left);
        }
        left = words.rest().len();
    }
    line.len()
}

fn parse_line(heap: Global, line: &[u8]) -> Result<Asked, LineError> {
    let typed = before_errors(line);
    let plan = parse_plan(&mut Words::new(&line[..typed]))?;
    let mut words = Words::new(&line[typed..]);
    let course = words
        .next()
        .map(|_| parse_course(heap, &plan, &mut words))
        .transpose()?;
    Ok(Asked { plan, course })
}

// The card of a plan, or what the errors typed behind it come to.
fn print_asked(rt: &impl Print, asked: &Asked) -> io::Result<()> {
    match &asked.course {
        None => print_card(rt, &asked.plan),
        Some(course) => print_course(rt, &asked.plan, course),
    }
}

// Blank lines and comments get no answer.
fn answer(rt: &impl Print, heap: Global, line: &[u8]) -> io::Result<()> {
    if matches!(Words::new(line).next(), None | Some([b'#', ..])) {
        return Ok(());
    }
    match parse_line(heap, line) {
        Ok(asked) => print_asked(rt, &asked),
        Err(error) => println!(rt; "{error}"),
    }
}

fn main(rt: HostRuntime) -> io::Result<()> {
    for line in BufReader::new(rt.alloc(), rt.stdin())?.split(rt.alloc(), b'\n') {
        let line = line?;
        answer(&rt, rt.alloc(), line.as_slice())?;
    }
    Ok(())
}
