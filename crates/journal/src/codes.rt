// The named values that fields hold, and the numbers that stand for them.
ghost use Rattle.journal.specs.Codes.{first_code, first_of, quantity_code, quantity_found, quantity_of, signal_code, signal_of, value_in};
ghost use Rattle.journal.specs.Fields.{failed_signal, first_attempt, quantity};
ghost use Rattle.std.specs.Prelude.{◌≡◌};

use method::{Question, Verdict};
use std::fmt;

// What came before the attempt that decided a point: nothing, an attempt of which one control alone was fit, or an unfit short attempt.
#[derive(Clone, Copy, PartialEq, Eq, Debug)]
pub enum FirstAttempt {
    Absent,
    SequenceAlone,
    QuantityAlone,
    ShortUnfit,
}

// What quantity control found, if it was asked. No Option<Verdict>: it has numbers and words of its own, which std's type can't.
#[derive(Clone, Copy, PartialEq, Eq, Debug)]
pub enum Quantity {
    NotAsked,
    Fit,
    Unfit,
}

// The signals of the manual stage.
#[derive(Clone, Copy, PartialEq, Eq, Debug)]
pub enum Signal {
    Inspection,
    Trial,
    Insulation,
}

// What differs from name to name, here and below, is the table of its numbers.
impl From<FirstAttempt> for i32 {
    ghost from_gives = { λ value code. code ≡ first_code value };

    fn from(value: FirstAttempt) -> i32 {
        match value {
            FirstAttempt::Absent => 0,
            FirstAttempt::SequenceAlone => 1,
            FirstAttempt::QuantityAlone => 2,
            FirstAttempt::ShortUnfit => 3,
        }
    }
}

impl TryFrom<i32> for FirstAttempt {
    type Error = Question;

    ghost try_from_gives = { λ code answer. answer ≡ value_in first_attempt first_of code };

    fn try_from(code: i32) -> Result<FirstAttempt, Question> {
        match code {
            0 => Ok(FirstAttempt::Absent),
            1 => Ok(FirstAttempt::SequenceAlone),
            2 => Ok(FirstAttempt::QuantityAlone),
            3 => Ok(FirstAttempt::ShortUnfit),
            _ => Err(Question::FieldsInRange),
        }
    }
}

impl From<Option<Verdict>> for Quantity {
    ghost from_gives = { λ verdict q. q ≡ quantity_found verdict };

    fn from(verdict: Option<Verdict>) -> Quantity {
        match verdict {
            None => Quantity::NotAsked,
            Some(Verdict::Fit) => Quantity::Fit,
            Some(Verdict::Unfit) => Quantity::Unfit,
        }
    }
}

impl From<Quantity> for i32 {
    ghost from_gives = { λ value code. code ≡ quantity_code value };

    fn from(value: Quantity) -> i32 {
        match value {
            Quantity::NotAsked => 0,
            Quantity::Fit => 1,
            Quantity::Unfit => 2,
        }
    }
}

impl TryFrom<i32> for Quantity {
    type Error = Question;

    ghost try_from_gives = { λ code answer. answer ≡ value_in quantity quantity_of code };

    fn try_from(code: i32) -> Result<Quantity, Question> {
        match code {
            0 => Ok(Quantity::NotAsked),
            1 => Ok(Quantity::Fit),
            2 => Ok(Quantity::Unfit),
            _ => Err(Question::FieldsInRange),
        }
    }
}

impl From<Signal> for i32 {
    ghost from_gives = { λ value code. code ≡ signal_code value };

    fn from(value: Signal) -> i32 {
        match value {
            Signal::Inspection => 1,
            Signal::Trial => 2,
            Signal::Insulation => 3,
        }
    }
}

impl TryFrom<i32> for Signal {
    type Error = Question;

    ghost try_from_gives = { λ code answer. answer ≡ value_in failed_signal signal_of code };

    fn try_from(code: i32) -> Result<Signal, Question> {
        match code {
            1 => Ok(Signal::Inspection),
            2 => Ok(Signal::Trial),
            3 => Ok(Signal::Insulation),
            _ => Err(Question::FieldsInRange),
        }
    }
}

impl fmt::Display for Quantity {
    fn fmt<W: fmt::Write>(&self, f: &mut fmt::Formatter<W>) -> fmt::Result {
        f.write_str(match self {
            Quantity::NotAsked => "not asked",
            Quantity::Fit => "fit",
            Quantity::Unfit => "unfit",
        })
    }
}

impl fmt::Display for Signal {
    fn fmt<W: fmt::Write>(&self, f: &mut fmt::Formatter<W>) -> fmt::Result {
        f.write_str(match self {
            Signal::Inspection => "inspection",
            Signal::Trial => "trial",
            Signal::Insulation => "insulation",
        })
    }
}
