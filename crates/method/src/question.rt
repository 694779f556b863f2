// The questions that the bench may answer no to. A refusal names the first of them, by its number.
ghost use Rattle.method.specs.Questions.{number_of};
ghost use Rattle.std.specs.Prelude.{◌≡◌};

use std::fmt;

#[derive(Clone, Copy, PartialEq, Eq, Debug)]
pub enum Question {
    // orders
    PointsInRange = 1,
    ControlKindKnown = 2,
    StopRuleKnown = 3,
    // truncations
    TruncationCutInRange = 4,
    TruncationNumberInRange = 5,
    // tables
    RowsStand = 6,
    TableInRange = 7,
    // calls
    NotEnded = 8,
    NoPointOpen = 9,
    SignalInRange = 10,
    MeterErrorInRange = 11,
    ReferenceErrorInRange = 12,
    AgreementInRange = 13,
    PointOpen = 14,
    Undecided = 15,
    CodeLegal = 16,
    StillSettling = 17,
    Decided = 18,
    FitsBuffer = 19,
    Ended = 20,
    // records
    FieldsInRange = 21,
    RecordKindKnown = 22,
    AllBytesThere = 23,
    FillZero = 24,
}

impl Question {
    // The number under which a refusal is reported: the enum's own, which `as` gives.
    pub fn number(self) -> u8
        ensures { result ≡ number_of self }
    {
        self as u8
    }
}

// The question as it is put to a person.
impl fmt::Display for Question {
    fn fmt<W: fmt::Write>(&self, f: &mut fmt::Formatter<W>) -> fmt::Result {
        f.write_str(match self {
            Question::PointsInRange => "are the points 1 to 999?",
            Question::ControlKindKnown => "is the kind of control 1 (full) or 2 (reduced)?",
            Question::StopRuleKnown => "is the stop rule 1 or 2?",
            Question::TruncationCutInRange => "is the new cut from 2 to the cut beneath?",
            Question::TruncationNumberInRange => "is the new cut number from 0 to the new cut?",
            Question::RowsStand =>
                "are there 1 to 8 rows, the first from 1, rising strictly, none above the cut?",
            Question::TableInRange => "are all the table's numbers within range?",
            Question::NotEnded => "is the verification still going on?",
            Question::NoPointOpen => "is no point open?",
            Question::SignalInRange => "is the main signal within 20,000,000 tenths?",
            Question::MeterErrorInRange => "is the meter's permitted error 1 to 1,000 tenths?",
            Question::ReferenceErrorInRange =>
                "is the reference's permitted error from 0 to the meter's?",
            Question::AgreementInRange => "is the agreement 0 to 9 steps?",
            Question::PointOpen => "is a point open?",
            Question::Undecided => "is the point still undecided?",
            Question::CodeLegal => "is the code within 1,999,999 steps?",
            Question::StillSettling => "are the codes still settling?",
            Question::Decided => "is the point decided?",
            Question::FitsBuffer => "does the record fit into the buffer at its place?",
            Question::Ended => "has the verification ended?",
            Question::FieldsInRange => "are the record's fields within range?",
            Question::RecordKindKnown => "is the record's kind known?",
            Question::AllBytesThere => "are all the record's bytes there?",
            Question::FillZero => "are the record's fill bits zero?",
        })
    }
}
