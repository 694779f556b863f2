// The three-step record: a point that a short attempt decided.
ghost use Rattle.std.specs.Prelude.{◌≡◌, refl};
ghost use Rattle.journal.specs.Kinds.{three_step};
ghost use Rattle.journal.specs.Sounds.{three_step_sound};

use crate::bits::{Packing, Unpacking};
use crate::fields::{POINT, SETTLING_CODES, SUM, TOLERANCE};
use crate::kind::RecordKind;

#[derive(Clone, Copy, PartialEq, Eq, Debug)]
pub struct ThreeStepFields {
    pub point: i32,
    pub settling_codes: i32,
    pub tolerance: i32,
    pub sum: i32,
}

impl ThreeStepFields {
    // The numbers of the fields, in the order in which they are written.
    pub fn numbers(&self) -> [i32; 4]
        ensures { result ≡ three_step.numbers self.now }
    {
        [self.point, self.settling_codes, self.tolerance, self.sum]
    }
}

pub struct ThreeStep;

impl RecordKind for ThreeStep {
    type Fields = ThreeStepFields;

    const NUMBER: u8 = 2;

    const LENGTH: usize = 8;

    ghost NUMBER = { three_step.number };

    ghost LENGTH = { three_step.size };

    ghost format = { three_step };

    ghost consts = { (refl, refl) };

    ghost sound = { three_step_sound };

    fn related(_fields: &ThreeStepFields) -> bool {
        true
    }

    fn pack(fields: &ThreeStepFields, bits: &mut Packing) {
        bits.put(POINT, fields.point);
        bits.put(SETTLING_CODES, fields.settling_codes);
        bits.put(TOLERANCE, fields.tolerance);
        bits.put(SUM, fields.sum);
    }

    fn unpack(bits: &mut Unpacking) -> ThreeStepFields {
        ThreeStepFields {
            point: bits.take(POINT),
            settling_codes: bits.take(SETTLING_CODES),
            tolerance: bits.take(TOLERANCE),
            sum: bits.take(SUM),
        }
    }
}
