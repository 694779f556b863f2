// A verification for the tests, and codes fed to it.
use journal::{Placed, Reader, Record};
use method::{Line, Question, ThreeStep, Truncated, Verdict};
use std::test::Fail;
use verification::{Inspection, Orders, Verification};

pub type Bench = Verification<Truncated<Line>, ThreeStep>;

// A new verification on normal control.
pub fn begin(points: i32, control: i32, rule: i32) -> Result<Bench, Fail> {
    let ready = Inspection::all_passed()?;
    let orders = Orders::new(points, control, rule)?;
    Ok(ready.start(orders, Truncated::standard(Line::Normal), ThreeStep))
}

// The same code so many times, each of them accepted; answers what the last one said.
pub fn feed(bench: &mut Bench, code: i32, times: u32) -> Result<Option<Verdict>, Fail> {
    let mut answer = None;
    for _ in 0..times {
        answer = bench.code(code)?;
    }
    Ok(answer)
}

// Opens a point at that signal, with P 100, E 20 and n 1, and settles it with three codes of 0.
pub fn open_settled(bench: &mut Bench, signal: i32) -> Result<(), Fail> {
    bench.open(signal, 100, 20, 1)?;
    feed(bench, 0, 3)?;
    Ok(())
}

// The first record of a journal.
pub fn first_record(journal: &[u8]) -> Result<Record, Fail> {
    let placed = Reader::new(journal).next()?.ok_or("no record")?;
    Ok(placed.record)
}

// The number of the question, or 0: the tables of tests name questions by their numbers.
pub fn number<T: Drop>(answer: Result<T, Question>) -> u8 {
    match answer {
        Ok(_) => 0,
        Err(question) => question.number(),
    }
}
