// What a kind of record is: its number, its length, its fields, and how they lie in its bits.
ghost use Rattle.std.specs.Prelude.{◌≡◌, ◌-◌, ◌<◌, ◌≤◌, ℕ, length, take, drop, MatchOption};
ghost use Rattle.journal.specs.Bits.{word_of};
ghost use Rattle.journal.specs.Cursor.{behind_all, put_all, take_all};
ghost use Rattle.journal.specs.Format.{Format, Sound};

use crate::bits::{Packing, Unpacking};

// A kind is added by writing down its fields. Writing, reading and the proof that they undo each other are common to all.
pub trait RecordKind {
    type Fields: Drop;

    const NUMBER: u8;

    // How many bytes a record of the kind has.
    const LENGTH: usize;

    ghost NUMBER: { ℕ };

    ghost LENGTH: { ℕ };

    ghost format: { Format Self.Fields };

    // The first bytes as one number, and the bytes behind them; `None` where they are too few. Final: how many they are is all
    // that differs from kind to kind.
    final fn apart(bytes: &[u8]) -> Option<(u128, &[u8])>
        ensures { MatchOption result (length bytes.now < format.size) (λ p. (format.size ≤ length bytes.now) × (p.0 ≡ word_of format.size bytes.now) × (p.1.now ≡ take (length bytes.now - format.size) (drop format.size bytes.now))) }
    {
        let (record, rest) = bytes.split_at_checked(Self::LENGTH)?;
        let mut word = [0; 16];
        word[16 - record.len()..].copy_from_slice(record);
        Some((u128::from_be_bytes(word), rest))
    }

    // Whether the fields agree with one another; each one's own range is asked as it is packed or unpacked.
    fn related(fields: &Self::Fields) -> bool
        ensures { result ≡ format.related fields.now };

    // Puts the fields behind the kind's number.
    fn pack(fields: &Self::Fields, bits: &mut Packing)
        ensures { bits.new ≡ put_all format.fields (format.numbers fields.now) bits.old };

    // Takes the fields behind the kind's number. They stand for the bits only where each was in range.
    fn unpack(bits: &mut Unpacking) -> Self::Fields
        ensures fields { result ≡ format.made (take_all format.fields bits.old) }
        ensures rest { bits.new ≡ behind_all format.fields bits.old };

    ghost consts: { (NUMBER ≡ format.number) × (LENGTH ≡ format.size) };

    ghost sound: { Sound format };
}
