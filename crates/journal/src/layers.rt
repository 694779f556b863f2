// Reading a record of any kind, by layers.
ghost use Rattle.std.specs.Prelude.{◌≡◌, ◌+◌, true, false, ◌&&◌, length, drop, Ok, Err, MatchResult, ◌==◌, nat_le};
ghost use Rattle.journal.specs.Cursor.{behind_all, headed, take_all};
ghost use Rattle.journal.specs.Reading.{decoded, fault};
ghost use Rattle.method.specs.declared.question.Question.TheVariants.{AllBytesThere, FieldsInRange, FillZero};

use crate::bits::Unpacking;
use crate::fault::{Fault, Layer, Place};
use crate::kind::RecordKind;
use method::Question;

// The kind layer, once the kind is known: are all the record's bytes there? Answers the bits behind the kind, and the bytes behind the record.
fn whole<K: RecordKind>(bytes: &[u8], place: Place) -> Result<(Unpacking, &[u8]), Fault>
    ensures { MatchResult result (λ p. (nat_le K.RecordKind.format.size (length bytes.now) ≡ true) × (p.0 ≡ headed K.RecordKind.format bytes.now) × (p.1.now ≡ drop K.RecordKind.format.size bytes.now) × (length p.1.now + K.RecordKind.format.size ≡ length bytes.now)) (λ e. (nat_le K.RecordKind.format.size (length bytes.now) ≡ false) × (e ≡ fault AllBytesThere Layer.Kind place)) }
{
    let (record, rest) = bytes
        .split_at_checked(K::LENGTH)
        .ok_or(place.fault(Question::AllBytesThere, Layer::Kind))?;
    Ok((Unpacking::behind_kind(record), rest))
}

// The bit layer: is the fill zero?
fn unfilled<K: RecordKind>(bits: &mut Unpacking, place: Place) -> Result<K::Fields, Fault>
    ensures rest { bits.new ≡ behind_all K.RecordKind.format.fields bits.old }
    ensures answer { MatchResult result (λ f. (((behind_all K.RecordKind.format.fields bits.old).word == 0) ≡ true) × (f ≡ K.RecordKind.format.made (take_all K.RecordKind.format.fields bits.old))) (λ e. (((behind_all K.RecordKind.format.fields bits.old).word == 0) ≡ false) × (e ≡ fault FillZero Layer.Bits place)) }
{
    let fields = K::unpack(bits);
    if bits.word != 0 {
        return Err(place.fault(Question::FillZero, Layer::Bits));
    }
    Ok(fields)
}

// The field layer: is each field in its range, and do they agree with one another?
fn in_range<K: RecordKind>(
    fields: K::Fields,
    bits: &Unpacking,
    place: Place,
) -> Result<K::Fields, Fault>
    ensures { MatchResult result (λ f. ((bits.now.in_range && K.RecordKind.format.related fields) ≡ true) × (f ≡ fields)) (λ e. ((bits.now.in_range && K.RecordKind.format.related fields) ≡ false) × (e ≡ fault FieldsInRange Layer.Field place)) }
{
    if bits.in_range && K::related(&fields) {
        return Ok(fields);
    }
    Err(place.fault(Question::FieldsInRange, Layer::Field))
}

// Reads a record of the kind `K` from the front of bytes that begin with its number; answers its fields and the bytes behind it.
#[tactic(auto, using(crate::proofs::Formats::decoded_by_layers))]
pub(crate) fn read<K: RecordKind>(bytes: &[u8], place: Place) -> Result<(K::Fields, &[u8]), Fault>
    ensures { MatchResult result (λ p. (decoded K.RecordKind.format place bytes.now ≡ Ok p.0) × (length p.1.now + K.RecordKind.format.size ≡ length bytes.now)) (λ e. decoded K.RecordKind.format place bytes.now ≡ Err e) }
{
    let (mut bits, rest) = whole::<K>(bytes, place)?;
    let fields = unfilled::<K>(&mut bits, place)?;
    Ok((in_range::<K>(fields, &bits, place)?, rest))
}
