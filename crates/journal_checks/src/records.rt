// Records of each kind: their bytes, and what is refused.
use journal::{
    Certificate, CertificateFields, Fault, FirstAttempt, Layer, Notice, NoticeFields, Place,
    Placed, Quantity, Reader, Record, RecordKind, Sequence, SequenceFields, Signal,
    ThreeStepFields, write_record,
};
use method::{Question, Verdict};
use std::process::Abort;

// The record is written as these bytes and no others are touched, and they are read as the record.
fn stands_for(rt: &impl Abort, record: Record, bytes: &[u8]) {
    assert!(rt; bytes.len() <= 15);
    let mut journal = [0xaa; 17];
    assert_eq!(rt; write_record(&mut journal, 1, &record), Ok(bytes.len()));
    assert_eq!(rt; journal[0], 0xaa);
    assert_eq!(rt; &journal[1..1 + bytes.len()], bytes);
    assert_eq!(rt; journal[1 + bytes.len()], 0xaa);
    let place = Place {
        ordinal: 1,
        first_byte: 0,
    };
    assert_eq!(rt;
        Reader::new(bytes).next(),
        Ok(Some(Placed { place, record }))
    );
}

// The record is not written, by that question, and no byte is touched.
fn refused(rt: &impl Abort, record: Record, place: usize, question: Question) {
    let mut journal = [0xaa; 8];
    assert_eq!(rt; write_record(&mut journal, place, &record), Err(question));
    assert_eq!(rt; journal, [0xaa; 8]);
}

// The byte is not read, by that question of that layer.
fn fails(rt: &impl Abort, byte: u8, question: Question, layer: Layer) {
    let place = Place {
        ordinal: 1,
        first_byte: 0,
    };
    assert_eq!(rt;
        Reader::new(&[byte]).next(),
        Err(Fault {
            question,
            layer,
            place,
        })
    );
}

fn notice(failed: Signal) -> Record {
    Record::Notice(NoticeFields { failed })
}

fn three_step(sum: i32) -> Record {
    Record::ThreeStep(ThreeStepFields {
        point: 1,
        settling_codes: 0,
        tolerance: 1,
        sum,
    })
}

fn certificate(closed: i32, unfit: i32, verdict: Verdict) -> Record {
    Record::Certificate(CertificateFields {
        declared: 999,
        closed,
        unfit,
        verdict,
        codes_accepted: 295_704,
    })
}

fn least_sequence() -> SequenceFields {
    SequenceFields {
        point: 1,
        first_attempt: FirstAttempt::Absent,
        observations: 1,
        outs: 0,
        sequence: Verdict::Unfit,
        quantity: Quantity::NotAsked,
        wild: false,
        dominance: false,
        verdict: Verdict::Unfit,
        settling_codes: 0,
        tolerance: 1,
        sum: -96_000,
        squares: 0,
    }
}

fn greatest_sequence() -> SequenceFields {
    SequenceFields {
        point: 999,
        first_attempt: FirstAttempt::ShortUnfit,
        observations: 48,
        outs: 48,
        sequence: Verdict::Fit,
        quantity: Quantity::Unfit,
        wild: true,
        dominance: true,
        verdict: Verdict::Fit,
        settling_codes: 200,
        tolerance: 10_000_000,
        sum: 96_000,
        squares: 192_000_000,
    }
}

// Kind 0100, then the signal in two bits, then two fill bits.
#[test]
fn notices(rt: HostRuntime) {
    stands_for(&rt, notice(Signal::Inspection), &[0x44]);
    stands_for(&rt, notice(Signal::Trial), &[0x48]);
    stands_for(&rt, notice(Signal::Insulation), &[0x4c]);
}

// 0100 10 01: the fill is not zero. 0100 00 00: there is no signal 0. 1001: there is no kind 9; nor is there a kind 0.
#[test]
fn faults(rt: HostRuntime) {
    fails(&rt, 0x49, Question::FillZero, Layer::Bits);
    fails(&rt, 0x40, Question::FieldsInRange, Layer::Field);
    fails(&rt, 0x90, Question::RecordKindKnown, Layer::Kind);
    fails(&rt, 0x00, Question::RecordKindKnown, Layer::Kind);
    fails(&rt, 0x41, Question::FillZero, Layer::Bits);
    fails(&rt, 0x10, Question::AllBytesThere, Layer::Kind);
}

// Kind 0010, point 0000000001, settling 00000000, D 24 bits with a 1 at their end, and the 18 bits of S:
// -96,000 is 2^18 - 96,000 = 166,144 = 10 10001001 00000000; -1 is all ones; 96,000 is 01 01110111 00000000.
#[test]
fn sums_in_twos_complement(rt: HostRuntime) {
    stands_for(
        &rt,
        three_step(-96_000),
        &[0x20, 0x04, 0, 0, 0, 0x06, 0x89, 0x00],
    );
    stands_for(
        &rt,
        three_step(-1),
        &[0x20, 0x04, 0, 0, 0, 0x07, 0xff, 0xff],
    );
    stands_for(&rt, three_step(0), &[0x20, 0x04, 0, 0, 0, 0x04, 0x00, 0x00]);
    stands_for(
        &rt,
        three_step(96_000),
        &[0x20, 0x04, 0, 0, 0, 0x05, 0x77, 0x00],
    );
}

// 0010 1111100111 11001000 100110001001011010000000 010111011100000000: point 999, settling 200, D 10,000,000, S 96,000.
#[test]
fn greatest_three_step(rt: HostRuntime) {
    let fields = ThreeStepFields {
        point: 999,
        settling_codes: 200,
        tolerance: 10_000_000,
        sum: 96_000,
    };
    stands_for(
        &rt,
        Record::ThreeStep(fields),
        &[0x2f, 0x9f, 0x22, 0x62, 0x5a, 0x01, 0x77, 0x00],
    );
}

// Least: 0001 0000000001 000 000001 000000 0 00 0 0 0, settling 0, D 1, S 101000100100000000, Q 0, seven fill bits.
// Greatest: 0001 1111100111 011 110000 110000 1 10 1 1 1, settling 11001000, D 100110001001011010000000,
// S 010111011100000000, Q 1011011100011011000000000000, seven fill bits.
#[test]
fn sequences(rt: HostRuntime) {
    stands_for(
        &rt,
        Record::Sequence(least_sequence()),
        &[0x10, 0x04, 0x02, 0, 0, 0, 0, 0, 0x34, 0x48, 0, 0, 0, 0, 0],
    );
    stands_for(
        &rt,
        Record::Sequence(greatest_sequence()),
        &[
            0x1f, 0x9d, 0xe1, 0x86, 0xf9, 0x13, 0x12, 0xd0, 0x0b, 0xb8, 0x05, 0xb8, 0xd8, 0, 0,
        ],
    );
}

// Least: 0011 0000000001 0000000001 0000000000 1, codes 0, five fill bits.
// Greatest: 0011 1111100111 1111100111 1111100111 0, codes 295,704 = 000001001000001100011000, five fill bits.
#[test]
fn certificates(rt: HostRuntime) {
    let least = CertificateFields {
        declared: 1,
        closed: 1,
        unfit: 0,
        verdict: Verdict::Fit,
        codes_accepted: 0,
    };
    stands_for(
        &rt,
        Record::Certificate(least),
        &[0x30, 0x04, 0x01, 0, 0x20, 0, 0, 0],
    );
    stands_for(
        &rt,
        certificate(999, 999, Verdict::Unfit),
        &[0x3f, 0x9f, 0xe7, 0xf9, 0xc0, 0x90, 0x63, 0x00],
    );
}

// A notice, the greatest certificate and the greatest sequence, each with bytes behind it or one too few.
#[test]
fn apart(rt: HostRuntime) {
    let behind: &[u8] = &[7, 9];
    let none: &[u8] = &[];
    assert_eq!(rt; Notice::apart(&[0x48, 7, 9]), Some((0x48, behind)));
    assert_eq!(rt; Notice::apart(&[0x48]), Some((0x48, none)));
    assert_eq!(rt; Notice::apart(none), None);
    assert_eq!(rt;
        Certificate::apart(&[0x3f, 0x9f, 0xe7, 0xf9, 0xc0, 0x90, 0x63, 0x00, 7, 9]),
        Some((0x3f9f_e7f9_c090_6300, behind))
    );
    assert_eq!(rt; Certificate::apart(&[0x3f; 7]), None);
    assert_eq!(rt;
        Sequence::apart(&[
            0x1f, 0x9d, 0xe1, 0x86, 0xf9, 0x13, 0x12, 0xd0, 0x0b, 0xb8, 0x05, 0xb8, 0xd8, 0, 0, 7,
            9,
        ]),
        Some((0x1f_9de1_86f9_1312_d00b_b805_b8d8_0000, behind))
    );
    assert_eq!(rt; Sequence::apart(&[0x1f; 14]), None);
}

// The range is asked before the room, so also where there is none.
#[test]
fn fields_out_of_range(rt: HostRuntime) {
    let more_outs = SequenceFields {
        outs: 2,
        ..least_sequence()
    };
    refused(
        &rt,
        Record::Sequence(more_outs),
        99,
        Question::FieldsInRange,
    );
    let no_point = SequenceFields {
        point: 0,
        ..least_sequence()
    };
    refused(&rt, Record::Sequence(no_point), 99, Question::FieldsInRange);
    refused(&rt, three_step(-96_001), 0, Question::FieldsInRange);
    refused(&rt, three_step(96_001), 0, Question::FieldsInRange);
    refused(
        &rt,
        certificate(999, 0, Verdict::Unfit),
        0,
        Question::FieldsInRange,
    );
    refused(
        &rt,
        certificate(998, 0, Verdict::Fit),
        0,
        Question::FieldsInRange,
    );
    refused(
        &rt,
        certificate(999, 1, Verdict::Fit),
        0,
        Question::FieldsInRange,
    );
    refused(
        &rt,
        certificate(5, 6, Verdict::Unfit),
        0,
        Question::FieldsInRange,
    );
}

// Eight bytes fit at 0 alone, one byte at 7 but not at the end, past it or at the largest place.
#[test]
fn room(rt: HostRuntime) {
    refused(&rt, three_step(0), 1, Question::FitsBuffer);
    refused(&rt, notice(Signal::Trial), 8, Question::FitsBuffer);
    refused(&rt, notice(Signal::Trial), 9, Question::FitsBuffer);
    refused(&rt, notice(Signal::Trial), usize::MAX, Question::FitsBuffer);
    refused(&rt, three_step(0), usize::MAX, Question::FitsBuffer);
    let mut journal = [0xaa; 8];
    assert_eq!(rt;
        write_record(&mut journal, 7, &notice(Signal::Trial)),
        Ok(1)
    );
    assert_eq!(rt; journal, [0xaa, 0xaa, 0xaa, 0xaa, 0xaa, 0xaa, 0xaa, 0x48]);
    assert_eq!(rt; write_record(&mut journal, 0, &three_step(0)), Ok(8));
}
