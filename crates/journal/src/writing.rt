// Writing a record of any kind into bytes that the caller lends.
ghost use Rattle.std.specs.Prelude.{◌≡◌, ◌≤◌, ◌&&◌, ◌++◌, length, drop};
ghost use Rattle.journal.specs.Bits.{bytes_of};
ghost use Rattle.journal.specs.Cursor.{packed};
ghost use Rattle.journal.specs.Format.{encoded, legal};
ghost use Rattle.journal.specs.Reading.{OneToOne};
ghost use Rattle.journal.specs.Writing.{answered, laid};

use crate::bits::Packing;
use crate::fields::KIND;
use crate::kind::RecordKind;
use method::Question;

// The kind and the fields in a row of bits, and how many bits are left in the last byte.
#[tactic(auto, using(crate::proofs::Formats::packing))]
fn packed<K: RecordKind>(fields: &K::Fields) -> Packing
    ensures { result ≡ packed K.RecordKind.format fields.now }
{
    let mut bits = Packing {
        word: 0,
        // At most 15 bytes: `as` is proved to lose nothing.
        left: 8 * K::LENGTH as u32,
        in_range: true,
    };
    bits.put(KIND, i32::from(K::NUMBER));
    K::pack(fields, &mut bits);
    bits
}

// What is asked before a byte is written: are the fields in range, and does the record fit? Answers its length.
fn asked<K: RecordKind>(
    fields: &K::Fields,
    bits: &Packing,
    place: usize,
    len: usize,
) -> Result<usize, Question>
    ensures { result ≡ answered (bits.now.in_range && K.RecordKind.format.related fields.now) K.RecordKind.format.size place len }
{
    if !bits.in_range || !K::related(fields) {
        return Err(Question::FieldsInRange);
    }
    if place > len || len - place < K::LENGTH {
        return Err(Question::FitsBuffer);
    }
    Ok(K::LENGTH)
}

// Writes the `count` low bytes of `word` at the front of `out`, the most significant first.
#[tactic(auto, using(crate::proofs::Bytes::low_bytes))]
fn lay(out: &mut [u8], word: u128, count: usize)
    requires { (count ≤ length out.old) × (count ≤ 16) }
    ensures { out.new ≡ bytes_of count word ++ drop count out.old }
{
    out[..count].copy_from_slice(&word.to_be_bytes()[16 - count..]);
}

// Writes a record of the kind `K` into the journal at `place`, and answers its length.
pub fn write<K: RecordKind>(
    journal: &mut [u8],
    place: usize,
    fields: &K::Fields,
) -> Result<usize, Question>
    ensures answer { result ≡ answered (legal K.RecordKind.format fields.now) (length (encoded K.RecordKind.format fields.now)) place (length journal.old) }
    ensures bytes { journal.new ≡ laid (legal K.RecordKind.format fields.now) (encoded K.RecordKind.format fields.now) place journal.old }
    ensures law { OneToOne K.RecordKind.format }
{
    let bits = packed::<K>(fields);
    let count = asked::<K>(fields, &bits, place, journal.len())?;
    lay(&mut journal[place..], bits.word << bits.left, count);
    Ok(count)
}
