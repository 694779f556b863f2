// Journals read through and record by record.
use journal::{
    Extent, Fault, Layer, NoticeFields, Place, Placed, Reader, Record, Signal, read_through,
};
use method::Question;
use std::test::Fail;

// A sequence (15 bytes), a three-step (8), a certificate (8) and a notice (1), each with its least fields.
const ALL_KINDS: [u8; 32] = [
    0x10, 0x04, 0x02, 0, 0, 0, 0, 0, 0x34, 0x48, 0, 0, 0, 0, 0, 0x20, 0x04, 0, 0, 0, 0x06, 0x89,
    0x00, 0x30, 0x04, 0x01, 0, 0x20, 0, 0, 0, 0x44,
];

fn fault(question: Question, layer: Layer, ordinal: usize, first_byte: usize) -> Fault {
    Fault {
        question,
        layer,
        place: Place {
            ordinal,
            first_byte,
        },
    }
}

#[test]
fn empty(rt: HostRuntime) {
    let journal: [u8; 0] = [];
    assert_eq!(rt;
        read_through(&journal),
        Ok(Extent {
            records: 0,
            bytes: 0,
        })
    );
    assert_eq!(rt; Reader::new(&journal).next(), Ok(None));
}

#[test]
fn all_kinds(rt: HostRuntime) -> Result<(), Fail> {
    assert_eq!(rt;
        read_through(&ALL_KINDS),
        Ok(Extent {
            records: 4,
            bytes: 32,
        })
    );
    let mut reader = Reader::new(&ALL_KINDS);
    let _ = reader.next()?;
    let _ = reader.next()?;
    let _ = reader.next()?;
    let last = Placed {
        place: Place {
            ordinal: 4,
            first_byte: 31,
        },
        record: Record::Notice(NoticeFields {
            failed: Signal::Inspection,
        }),
    };
    assert_eq!(rt; reader.next(), Ok(Some(last)));
    assert_eq!(rt;
        reader.extent(),
        Extent {
            records: 4,
            bytes: 32,
        }
    );
    assert_eq!(rt; reader.next(), Ok(None));
    assert_eq!(rt; reader.next(), Ok(None));
    Ok(())
}

// The third record is cut off after seven of its eight bytes.
#[test]
fn truncated(rt: HostRuntime) {
    assert_eq!(rt;
        read_through(&ALL_KINDS[0..30]),
        Err(fault(Question::AllBytesThere, Layer::Kind, 3, 23))
    );
}

// The reader stays at the record that it does not read.
#[test]
fn same_fault_again(rt: HostRuntime) -> Result<(), Fail> {
    let journal = [0x48, 0x49, 0x44];
    let mut reader = Reader::new(&journal);
    let _ = reader.next()?;
    assert_eq!(rt;
        reader.next(),
        Err(fault(Question::FillZero, Layer::Bits, 2, 1))
    );
    assert_eq!(rt;
        reader.next(),
        Err(fault(Question::FillZero, Layer::Bits, 2, 1))
    );
    assert_eq!(rt;
        reader.extent(),
        Extent {
            records: 1,
            bytes: 1,
        }
    );
    assert_eq!(rt;
        read_through(&journal),
        Err(fault(Question::FillZero, Layer::Bits, 2, 1))
    );
    Ok(())
}

// A certificate (closed 2 of 1) and a three-step (point 0) that are whole but out of range.
#[test]
fn out_of_range(rt: HostRuntime) {
    let closed_more = [0x48, 0x30, 0x04, 0x02, 0, 0, 0, 0, 0];
    assert_eq!(rt;
        read_through(&closed_more),
        Err(fault(Question::FieldsInRange, Layer::Field, 2, 1))
    );
    let no_point = [0x20, 0x00, 0, 0, 0, 0x06, 0x89, 0x00];
    assert_eq!(rt;
        read_through(&no_point),
        Err(fault(Question::FieldsInRange, Layer::Field, 1, 0))
    );
}
