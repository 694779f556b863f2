// The record of a decided point.
ghost use Rattle.std.specs.Prelude.{◌≡◌, ◌≤◌, true};
ghost use Rattle.journal.specs.Journal.{legal_record};
ghost use Rattle.verification.specs.Records.{first_of, point_record, sequence_fields, three_step_fields};

use journal::{FirstAttempt, Quantity, Record, SequenceFields, ThreeStepFields};
use point::{Before, Course, Outcome};

// No From: both types are other crates'.
fn first_attempt(before: Before) -> FirstAttempt
    ensures { result ≡ first_of before }
{
    match before {
        Before::Nothing => FirstAttempt::Absent,
        Before::SequenceAlone(_) => FirstAttempt::SequenceAlone,
        Before::QuantityAlone(_) => FirstAttempt::QuantityAlone,
        Before::ShortUnfit(_) => FirstAttempt::ShortUnfit,
    }
}

// Here and below `as` is proved to lose nothing, and no `From` leads from these numbers to signed ones.
fn sequence_record(point: u32, before: Before, outcome: &Outcome) -> SequenceFields
    requires { point ≤ 999 }
    ensures { result ≡ sequence_fields point before outcome.now }
{
    let trial = outcome.trial.attempt();
    let tally = trial.tally;
    SequenceFields {
        point: point as i32,
        first_attempt: first_attempt(before),
        observations: tally.observations as i32,
        outs: tally.outs as i32,
        sequence: outcome.sequence,
        quantity: Quantity::from(outcome.quantity),
        wild: tally.wild,
        dominance: outcome.dominance,
        verdict: outcome.verdict,
        settling_codes: trial.settled as i32,
        tolerance: trial.width as i32,
        sum: tally.sum,
        squares: tally.squares as i32,
    }
}

fn three_step_record(point: u32, outcome: &Outcome) -> ThreeStepFields
    requires { point ≤ 999 }
    ensures { result ≡ three_step_fields point outcome.now }
{
    let trial = outcome.trial.attempt();
    ThreeStepFields {
        point: point as i32,
        settling_codes: trial.settled as i32,
        tolerance: trial.width as i32,
        sum: trial.tally.sum,
    }
}

// The record of a point by its number. Its fields are in range.
pub(crate) fn record_of(point: u32, outcome: &Outcome) -> Record
    requires { (1 ≤ point) × (point ≤ 999) }
    ensures is { result ≡ point_record point outcome.now }
    ensures legal { legal_record result ≡ true }
{
    match outcome.trial.attempt().course {
        Course::Main(before) => Record::Sequence(sequence_record(point, before, outcome)),
        Course::Short => Record::ThreeStep(three_step_record(point, outcome)),
    }
}
