// A journal's records as numbers.
use crate::wire::{FIELDS, Item};
use journal::{
    Certificate, Fault, Layer, Notice, Placed, Reader, Record, RecordKind, Sequence, ThreeStep,
    read_through,
};
use std::array::from_fn;

// The numbers of a record's fields, and 0 behind them.
fn padded(numbers: &[i32]) -> [i32; FIELDS] {
    from_fn(|i| numbers.get(i).copied().unwrap_or(0))
}

impl From<Placed> for Item {
    fn from(placed: Placed) -> Item {
        let (kind, fields) = match placed.record {
            Record::Sequence(fields) => (Sequence::NUMBER, fields.numbers()),
            Record::ThreeStep(fields) => (ThreeStep::NUMBER, padded(&fields.numbers())),
            Record::Certificate(fields) => (Certificate::NUMBER, padded(&fields.numbers())),
            Record::Notice(fields) => (Notice::NUMBER, padded(&fields.numbers())),
        };
        Item {
            ordinal: placed.place.ordinal,
            first_byte: placed.place.first_byte,
            kind: u32::from(kind),
            fields,
        }
    }
}

// The numbers of the layers are those of the C interface.
impl From<Fault> for Item {
    fn from(fault: Fault) -> Item {
        let layer = match fault.layer {
            Layer::Kind => 1,
            Layer::Bits => 2,
            Layer::Field => 3,
        };
        Item {
            ordinal: fault.place.ordinal,
            first_byte: fault.place.first_byte,
            kind: 0,
            fields: padded(&[i32::from(fault.question.number()), layer]),
        }
    }
}

// Reads a journal to its end, its first fault or the last of the items, and answers how many items there are.
#[unsafe(no_mangle)]
pub extern "C" fn hemmertaupe_read(journal: &[u8], items: &mut [Item]) -> usize {
    let mut reader = Reader::new(journal);
    for (i, item) in items.iter_mut().enumerate() {
        match reader.next() {
            Ok(Some(placed)) => *item = Item::from(placed),
            Ok(None) => return i,
            Err(fault) => {
                *item = Item::from(fault);
                return i + 1;
            }
        }
    }
    items.len()
}

// Reads a journal through, and answers how many records it has; the greatest number if there is a fault.
#[unsafe(no_mangle)]
pub extern "C" fn hemmertaupe_count(journal: &[u8]) -> usize {
    read_through(journal).map_or(usize::MAX, |extent| extent.records)
}
