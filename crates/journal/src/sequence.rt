// The sequence record: a point that a main attempt decided.
ghost use Rattle.std.specs.Prelude.{◌≡◌, refl};
ghost use Rattle.journal.specs.Kinds.{sequence};
ghost use Rattle.journal.specs.Sounds.{sequence_sound};

use crate::bits::{Packing, Unpacking};
use crate::coded::Coded;
use crate::codes::{FirstAttempt, Quantity};
use crate::fields::{
    FIRST_ATTEMPT, FLAG, OBSERVATIONS, OUTS, POINT, QUANTITY, SETTLING_CODES, SQUARES, SUM,
    TOLERANCE,
};
use crate::kind::RecordKind;
use method::Verdict;

// The numbers are those of the attempt that decided the point.
#[derive(Clone, Copy, PartialEq, Eq, Debug)]
pub struct SequenceFields {
    pub point: i32,
    pub first_attempt: FirstAttempt,
    pub observations: i32,
    pub outs: i32,
    pub sequence: Verdict,
    pub quantity: Quantity,
    pub wild: bool,
    pub dominance: bool,
    pub verdict: Verdict,
    pub settling_codes: i32,
    pub tolerance: i32,
    pub sum: i32,
    pub squares: i32,
}

impl SequenceFields {
    // The numbers of the fields, in the order in which they are written.
    pub fn numbers(&self) -> [i32; 13]
        ensures { result ≡ sequence.numbers self.now }
    {
        [
            self.point,
            self.first_attempt.code(),
            self.observations,
            self.outs,
            self.sequence.code(),
            self.quantity.code(),
            self.wild.code(),
            self.dominance.code(),
            self.verdict.code(),
            self.settling_codes,
            self.tolerance,
            self.sum,
            self.squares,
        ]
    }
}

pub struct Sequence;

impl RecordKind for Sequence {
    type Fields = SequenceFields;

    const NUMBER: u8 = 1;

    const LENGTH: usize = 15;

    ghost NUMBER = { sequence.number };

    ghost LENGTH = { sequence.size };

    ghost format = { sequence };

    ghost consts = { (refl, refl) };

    ghost sound = { sequence_sound };

    fn related(fields: &SequenceFields) -> bool {
        fields.outs <= fields.observations
    }

    fn pack(fields: &SequenceFields, bits: &mut Packing) {
        bits.put(POINT, fields.point);
        bits.put(FIRST_ATTEMPT, fields.first_attempt);
        bits.put(OBSERVATIONS, fields.observations);
        bits.put(OUTS, fields.outs);
        bits.put(FLAG, fields.sequence);
        bits.put(QUANTITY, fields.quantity);
        bits.put(FLAG, fields.wild);
        bits.put(FLAG, fields.dominance);
        bits.put(FLAG, fields.verdict);
        bits.put(SETTLING_CODES, fields.settling_codes);
        bits.put(TOLERANCE, fields.tolerance);
        bits.put(SUM, fields.sum);
        bits.put(SQUARES, fields.squares);
    }

    fn unpack(bits: &mut Unpacking) -> SequenceFields {
        SequenceFields {
            point: bits.take(POINT),
            first_attempt: bits.take(FIRST_ATTEMPT),
            observations: bits.take(OBSERVATIONS),
            outs: bits.take(OUTS),
            sequence: bits.take(FLAG),
            quantity: bits.take(QUANTITY),
            wild: bits.take(FLAG),
            dominance: bits.take(FLAG),
            verdict: bits.take(FLAG),
            settling_codes: bits.take(SETTLING_CODES),
            tolerance: bits.take(TOLERANCE),
            sum: bits.take(SUM),
            squares: bits.take(SQUARES),
        }
    }
}
