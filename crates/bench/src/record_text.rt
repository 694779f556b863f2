// Records as they are printed: their fields in order behind the kind's number, one-bit fields 0 or 1.
use console::{push_bytes, push_number};
use journal::{
    Certificate, Fault, Layer, Notice, Placed, Reader, Record, RecordKind, Sequence, ThreeStep,
};
use std::alloc::AllocError;

// A number behind a mark. Most are of one digit, which is put without being formatted.
fn push_marked(text: &mut Vec<u8>, mark: u8, number: i32) -> Result<(), AllocError> {
    match u8::try_from(number) {
        Ok(digit) if digit < 10 => push_bytes(text, &[mark, b'0' + digit]),
        _ => {
            push_bytes(text, &[mark])?;
            push_number(text, number)
        }
    }
}

// The fields of a record behind its kind's number. By pieces: `write!` into a text took twice the time of a reading.
fn push_fields(text: &mut Vec<u8>, kind: u8, fields: &[i32]) -> Result<(), AllocError> {
    push_marked(text, b':', i32::from(kind))?;
    let mut mark = b':';
    for field in fields {
        push_marked(text, mark, *field)?;
        mark = b',';
    }
    Ok(())
}

fn push_record(text: &mut Vec<u8>, record: Record) -> Result<(), AllocError> {
    match record {
        Record::Sequence(fields) => push_fields(text, Sequence::NUMBER, &fields.numbers()),
        Record::ThreeStep(fields) => push_fields(text, ThreeStep::NUMBER, &fields.numbers()),
        Record::Certificate(fields) => push_fields(text, Certificate::NUMBER, &fields.numbers()),
        Record::Notice(fields) => push_fields(text, Notice::NUMBER, &fields.numbers()),
    }
}

// ORDINAL:FIRST:KIND:FIELDS
fn push_placed(text: &mut Vec<u8>, placed: Placed) -> Result<(), AllocError> {
    push_bytes(text, b" ")?;
    push_number(text, placed.place.ordinal)?;
    push_bytes(text, b":")?;
    push_number(text, placed.place.first_byte)?;
    push_record(text, placed.record)
}

fn push_fault(text: &mut Vec<u8>, fault: Fault) -> Result<(), AllocError> {
    push_bytes(text, b" fault ")?;
    push_number(text, fault.question.number())?;
    push_bytes(text, b" ")?;
    push_number(text, fault.place.ordinal)?;
    push_bytes(text, b" ")?;
    push_number(text, fault.place.first_byte)?;
    push_bytes(
        text,
        match fault.layer {
            Layer::Kind => b" kind",
            Layer::Bits => b" bits",
            Layer::Field => b" field",
        },
    )
}

// Puts the answer with the records of a journal behind a text, up to the end or the first fault.
pub fn push_reading(text: &mut Vec<u8>, journal: &[u8]) -> Result<(), AllocError> {
    push_bytes(text, b"ok")?;
    let mut reader = Reader::new(journal);
    loop {
        match reader.next() {
            Ok(Some(placed)) => push_placed(text, placed)?,
            Ok(None) => return push_bytes(text, b" end"),
            Err(fault) => return push_fault(text, fault),
        }
    }
}
