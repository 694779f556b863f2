// The notice: which signal of the manual stage failed.
ghost use Rattle.std.specs.Prelude.{◌≡◌, refl};
ghost use Rattle.journal.specs.Kinds.{notice};
ghost use Rattle.journal.specs.Sounds.{notice_sound};

use crate::bits::{Packing, Unpacking};
use crate::coded::Coded;
use crate::codes::Signal;
use crate::fields::SIGNAL;
use crate::kind::RecordKind;

#[derive(Clone, Copy, PartialEq, Eq, Debug)]
pub struct NoticeFields {
    pub failed: Signal,
}

impl NoticeFields {
    // The numbers of the fields, in the order in which they are written.
    pub fn numbers(&self) -> [i32; 1]
        ensures { result ≡ notice.numbers self.now }
    {
        [self.failed.code()]
    }
}

pub struct Notice;

impl RecordKind for Notice {
    type Fields = NoticeFields;

    const NUMBER: u8 = 4;

    const LENGTH: usize = 1;

    ghost NUMBER = { notice.number };

    ghost LENGTH = { notice.size };

    ghost format = { notice };

    ghost consts = { (refl, refl) };

    ghost sound = { notice_sound };

    fn related(_fields: &NoticeFields) -> bool {
        true
    }

    fn pack(fields: &NoticeFields, bits: &mut Packing) {
        bits.put(SIGNAL, fields.failed);
    }

    fn unpack(bits: &mut Unpacking) -> NoticeFields {
        NoticeFields {
            failed: bits.take(SIGNAL),
        }
    }
}
