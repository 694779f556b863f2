// A verification fed by the simulated meter until its point is decided.
use crate::meter::{Bias, code_at};
use journal::{Reader, Record};
use method::{Line, ThreeStep, Truncated, Verdict};
use std::test::Fail;
use verification::{Inspection, Orders, Verification};

pub type Bench = Verification<Truncated<Line>, ThreeStep>;

pub const FULL: i32 = 1;

pub const REDUCED: i32 = 2;

// A new verification that goes through all its points.
pub fn begin(points: i32, control: i32, main: Truncated<Line>) -> Result<Bench, Fail> {
    let ready = Inspection::all_passed()?;
    Ok(ready.start(Orders::new(points, control, 2)?, main, ThreeStep))
}

// The observations of the attempt that decided the point and of the one before it, if there was one, and the verdict.
#[derive(Clone, Copy)]
pub struct Course {
    pub earlier: Option<u32>,
    pub last: Option<u32>,
    pub verdict: Verdict,
}

// Feeds the open point with what the meter shows at each level, from the settling codes on. An attempt begins at observation 1.
pub fn observe(bench: &mut Bench, bias: Bias) -> Result<Course, Fail> {
    let mut earlier = None;
    let mut last = None;
    for _ in 0..296 {
        let level = bench.level()?;
        if level.observation == Some(1) {
            earlier = last;
        }
        last = level.observation;
        // 0 while the meter settles: nothing of a bias falls there
        let code = code_at(level.tenths, bias.at(earlier.is_none(), last.unwrap_or(0)))?;
        if let Some(verdict) = bench.code(code)? {
            return Ok(Course {
                earlier,
                last,
                verdict,
            });
        }
    }
    Err(Fail::new("undecided"))
}

// Closes the decided point, and reads its record.
pub fn closed(bench: &mut Bench) -> Result<Record, Fail> {
    let mut journal = [0u8; 15];
    bench.close(&mut journal, 0)?;
    let placed = Reader::new(&journal).next()?.ok_or("no record")?;
    Ok(placed.record)
}
