// Records of any kind, one behind another: written one by one, and read one by one or through.
ghost use Rattle.std.specs.Prelude.{◌≡◌, ◌+◌, true, List, length, Ok, Err, MatchResult};
ghost use Rattle.journal.specs.Journal.{Holds, JournalLaws, Stops, all_legal, by_kind, count, journal_bytes, legal_record, next_of, place_of, record_bytes, span};
ghost use Rattle.journal.specs.Reading.{decoded};
ghost use Rattle.journal.specs.Writing.{answered, laid};

use crate::certificate::Certificate;
use crate::fault::{Fault, Layer, Place};
use crate::kind::RecordKind;
use crate::layers::read;
use crate::notice::Notice;
use crate::reader::Reader;
use crate::record::{Extent, Placed, Record};
use crate::sequence::Sequence;
use crate::three_step::ThreeStep;
use crate::writing::write;
use method::Question;

// Writes a record into the journal at `place`, and answers its length.
pub fn write_record(journal: &mut [u8], place: usize, record: &Record) -> Result<usize, Question>
    ensures answer { result ≡ answered (legal_record «record».now) (length (record_bytes «record».now)) place (length journal.old) }
    ensures bytes { journal.new ≡ laid (legal_record «record».now) (record_bytes «record».now) place journal.old }
{
    // Each arm names a kind's type, which no value can pick: a method for it in each kind would say the same at more length.
    match record {
        Record::Sequence(fields) => write::<Sequence>(journal, place, fields),
        Record::ThreeStep(fields) => write::<ThreeStep>(journal, place, fields),
        Record::Certificate(fields) => write::<Certificate>(journal, place, fields),
        Record::Notice(fields) => write::<Notice>(journal, place, fields),
    }
}

// Reads a record of the kind `K` at the front of `bytes`, as a record of any kind.
fn read_as<K: RecordKind, F: FnOnce(K::Fields) -> Record>(
    named: F,
    bytes: &[u8],
    place: Place,
) -> Result<(Record, &[u8]), Fault>
    requires { (f : K.Fields) → F.pre named f }
    ensures { MatchResult result (λ p. ((f : K.Fields) × (decoded K.RecordKind.format place bytes.now ≡ Ok f) × F.post named f p.0) × (length p.1.now + K.RecordKind.format.size ≡ length bytes.now)) (λ e. decoded K.RecordKind.format place bytes.now ≡ Err e) }
{
    let (fields, rest) = read::<K>(bytes, place)?;
    Ok((named(fields), rest))
}

// The kind layer: is the kind, a number in the bytes, known? Reads the record at the front of `bytes` as that kind, and answers
// the bytes behind it too.
fn read_record(kind: u8, bytes: &[u8], place: Place) -> Result<(Record, &[u8]), Fault>
    ensures { MatchResult result (λ p. (by_kind kind place bytes.now ≡ Ok p.0) × (length p.1.now + length (record_bytes p.0) ≡ length bytes.now)) (λ e. by_kind kind place bytes.now ≡ Err e) }
{
    match kind {
        Sequence::NUMBER => read_as::<Sequence, _>(Record::Sequence, bytes, place),
        ThreeStep::NUMBER => read_as::<ThreeStep, _>(Record::ThreeStep, bytes, place),
        Certificate::NUMBER => read_as::<Certificate, _>(Record::Certificate, bytes, place),
        Notice::NUMBER => read_as::<Notice, _>(Record::Notice, bytes, place),
        _ => Err(place.fault(Question::RecordKindKnown, Layer::Kind)),
    }
}

impl<'a> Reader<'a> {
    // A reader at the first byte of a journal.
    pub fn new(journal: &'a [u8]) -> Reader<'a>
        ensures { (result.journal.now ≡ journal.now) × (result.position ≡ 0) × (result.records ≡ 0) }
    {
        Reader {
            journal,
            position: 0,
            records: 0,
        }
    }

    // How many records were read, and how many bytes they took.
    pub fn extent(&self) -> Extent
        ensures { result ≡ record { records = self.now.records; bytes = self.now.position } }
    {
        Extent {
            records: self.records,
            bytes: self.position,
        }
    }

    // Where the next record stands.
    fn place(&self) -> Place
        ensures { result ≡ place_of self.now.position self.now.records }
    {
        Place {
            ordinal: self.records + 1,
            first_byte: self.position,
        }
    }

    // The next record with its place, or `None` at the end of the bytes. After a fault the reader stays where it is.
    #[tactic(auto, using(crate::proofs::Journals::next_by, crate::proofs::Journals::moved))]
    pub fn next(&mut self) -> Result<Option<Placed>, Fault>
        ensures same { self.new.journal.now ≡ self.old.journal.now }
        ensures answer { result ≡ next_of self.old.journal.now self.old.position self.old.records }
        ensures moves { self.new.position ≡ self.old.position + span result }
        ensures counts { self.new.records ≡ self.old.records + count result }
    {
        let journal = self.journal;
        let bytes = &journal[self.position..];
        // The end is an answer and no fault, so `?` has nothing to hand on here.
        let [first, ..] = bytes else {
            return Ok(None);
        };
        let place = self.place();
        let (record, rest) = read_record(*first / 16, bytes, place)?;
        self.position = journal.len() - rest.len();
        self.records += 1;
        Ok(Some(Placed { place, record }))
    }
}

// Reads a journal through to its end.
pub fn read_through(journal: &[u8]) -> Result<Extent, Fault>
    ensures through { MatchResult result (λ x. (rs : List Record) × Holds journal.now rs × (x.records ≡ length rs) × (x.bytes ≡ length journal.now)) (λ e. (rs : List Record) × Stops journal.now rs e) }
    ensures exactly { (rs : List Record) → all_legal rs ≡ true → journal.now ≡ journal_bytes rs → result ≡ Ok (record { records = length rs; bytes = length (journal_bytes rs) }) }
    ensures law { JournalLaws }
{
    let mut reader = Reader::new(journal);
    while let Some(_) = reader.next()? {}
    Ok(reader.extent())
}
