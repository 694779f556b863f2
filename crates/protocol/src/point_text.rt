// The entries of a point, in the order of the method's forms.
use journal::{FirstAttempt, SequenceFields, ThreeStepFields};
use report::{
    Decimal, Places, Ratio, attempts_made, limit_size, mean_size, ratio_size, settling_end,
};
use std::io;
use std::io::Write;

// A three-step plan makes three observations.
const THREE: i32 = 3;

fn print_head(out: &mut impl Write, point: i32, settling_codes: i32) -> io::Result<()> {
    writeln!(out, "Point {point}")?;
    let end = settling_end(settling_codes);
    writeln!(out, "  settling codes: {settling_codes}, {end}")
}

fn print_attempts(out: &mut impl Write, first: FirstAttempt) -> io::Result<()> {
    let attempts = match attempts_made(first) {
        1 => "one",
        _ => "two",
    };
    writeln!(out, "  attempts: {attempts}")?;
    match first {
        FirstAttempt::Absent => Ok(()),
        FirstAttempt::SequenceAlone => writeln!(
            out,
            "  first attempt: sequence fit, quantity unfit"
        ),
        FirstAttempt::QuantityAlone => writeln!(
            out,
            "  first attempt: sequence unfit, quantity fit"
        ),
        FirstAttempt::ShortUnfit => writeln!(out, "  first attempt: short, unfit"),
    }
}

fn signed(units: i32, places: Places) -> Decimal {
    Decimal::new(units < 0, u64::from(units.unsigned_abs()), places)
}

fn print_tolerance(out: &mut impl Write, tolerance: i32) -> io::Result<()> {
    let steps = signed(tolerance, Places::Five);
    writeln!(out, "  tolerance, steps: {steps}")
}

// A size in hundredths, with the sign of the sum; a dash where there is none.
fn print_size(out: &mut impl Write, name: &str, sum: i32, size: Option<u64>) -> io::Result<()> {
    match size {
        Some(hundredths) => {
            let value = Decimal::new(sum < 0, hundredths, Places::Two);
            writeln!(out, "  {name}: {value}")
        }
        None => writeln!(out, "  {name}: -"),
    }
}

fn print_ratio(out: &mut impl Write, fields: &SequenceFields) -> io::Result<()> {
    let name = "ratio of the systematic part to the random one";
    match ratio_size(fields) {
        Ratio::Undefined => print_size(out, name, fields.sum, None),
        Ratio::Infinite if fields.sum < 0 => writeln!(out, "  {name}: -inf"),
        Ratio::Infinite => writeln!(out, "  {name}: inf"),
        Ratio::Hundredths(size) => print_size(out, name, fields.sum, Some(size)),
    }
}

fn print_counts(out: &mut impl Write, fields: &SequenceFields) -> io::Result<()> {
    let observations = fields.observations;
    writeln!(out, "  observations: {observations}")?;
    let outs = fields.outs;
    writeln!(out, "  out of tolerance: {outs}")?;
    let sequence = fields.sequence;
    writeln!(out, "  sequence: {sequence}")
}

fn print_estimates(out: &mut impl Write, fields: &SequenceFields) -> io::Result<()> {
    print_tolerance(out, fields.tolerance)?;
    print_size(
        out,
        "confidence limit of the error, steps",
        fields.sum,
        limit_size(fields),
    )?;
    let quantity = fields.quantity;
    writeln!(out, "  quantity: {quantity}")?;
    let mean = mean_size(fields.sum, fields.observations);
    print_size(out, "mean error (systematic part), steps", fields.sum, mean)?;
    print_ratio(out, fields)?;
    let dominance = if fields.dominance {
        "found"
    } else {
        "not found"
    };
    writeln!(out, "  dominance: {dominance}")?;
    if fields.wild {
        writeln!(
            out,
            "  wild: an error was beyond 200 steps, and counts as 200 in the numbers above"
        )?;
    }
    Ok(())
}

// A point that a main attempt decided.
pub fn print_sequence(out: &mut impl Write, fields: &SequenceFields) -> io::Result<()> {
    print_head(out, fields.point, fields.settling_codes)?;
    print_attempts(out, fields.first_attempt)?;
    print_counts(out, fields)?;
    print_estimates(out, fields)?;
    let verdict = fields.verdict;
    writeln!(out, "  verdict on the point: {verdict}")
}

// A point that a short attempt decided: only a fit one does.
pub fn print_three_step(out: &mut impl Write, fields: &ThreeStepFields) -> io::Result<()> {
    print_head(out, fields.point, fields.settling_codes)?;
    writeln!(out, "  attempts: one, short")?;
    writeln!(out, "  observations: not recorded")?;
    print_tolerance(out, fields.tolerance)?;
    let sum = signed(fields.sum, Places::One);
    writeln!(out, "  sum of errors, steps: {sum}")?;
    let mean = mean_size(fields.sum, THREE);
    print_size(
        out,
        "mean error where the short plan is three-step, steps",
        fields.sum,
        mean,
    )?;
    writeln!(out, "  verdict on the point: fit")
}
