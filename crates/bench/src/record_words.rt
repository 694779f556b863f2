// Records as they are typed: their fields in order, the kind left out, one-bit fields 0 or 1.
use crate::denied::Denied;
use console::{Words, next_number};
use journal::{
    Certificate, CertificateFields, FirstAttempt, Notice, NoticeFields, Quantity, Record,
    RecordKind, Sequence, SequenceFields, Signal, ThreeStep, ThreeStepFields,
};
use method::Verdict;

// All the numbers left of a line, as many as a record has fields.
fn numbers<const N: usize>(words: &mut Words) -> Result<[i32; N], Denied> {
    // filled in place: `from_fn` can't stop at a word that is no number
    let mut numbers = [0; N];
    for number in numbers.iter_mut() {
        *number = next_number(words).ok_or(Denied::Syntax)?;
    }
    if words.is_empty() {
        Ok(numbers)
    } else {
        Err(Denied::Syntax)
    }
}

fn flag(number: i32) -> Result<bool, Denied> {
    match number {
        0 => Ok(false),
        1 => Ok(true),
        _ => Err(Denied::Syntax),
    }
}

fn verdict(number: i32) -> Result<Verdict, Denied> {
    Ok(Verdict::from(flag(number)?))
}

// One-bit fields are asked first: a line with another number there is no command. Some of the others hold values with
// names: a number that stands for none of them is out of range.
fn sequence(numbers: [i32; 13]) -> Result<SequenceFields, Denied> {
    let [
        point,
        first_attempt,
        observations,
        outs,
        by_sequence,
        quantity,
        wild,
        dominance,
        by_both,
        settling_codes,
        tolerance,
        sum,
        squares,
    ] = numbers;
    let by_sequence = verdict(by_sequence)?;
    let wild = flag(wild)?;
    let dominance = flag(dominance)?;
    let by_both = verdict(by_both)?;
    Ok(SequenceFields {
        point,
        first_attempt: FirstAttempt::try_from(first_attempt)?,
        observations,
        outs,
        sequence: by_sequence,
        quantity: Quantity::try_from(quantity)?,
        wild,
        dominance,
        verdict: by_both,
        settling_codes,
        tolerance,
        sum,
        squares,
    })
}

fn three_step(numbers: [i32; 4]) -> ThreeStepFields {
    let [point, settling_codes, tolerance, sum] = numbers;
    ThreeStepFields {
        point,
        settling_codes,
        tolerance,
        sum,
    }
}

fn certificate(numbers: [i32; 5]) -> Result<CertificateFields, Denied> {
    let [declared, closed, unfit, by_all, codes_accepted] = numbers;
    Ok(CertificateFields {
        declared,
        closed,
        unfit,
        verdict: verdict(by_all)?,
        codes_accepted,
    })
}

fn notice(numbers: [i32; 1]) -> Result<NoticeFields, Denied> {
    let [failed] = numbers;
    Ok(NoticeFields {
        failed: Signal::try_from(failed)?,
    })
}

// The record of a kind, from all the numbers left of a line. The kind is a number as it is typed: one that no kind has is no
// command.
pub fn parse_record(kind: i32, words: &mut Words) -> Result<Record, Denied> {
    match u8::try_from(kind) {
        Ok(Sequence::NUMBER) => Ok(Record::Sequence(sequence(numbers(words)?)?)),
        Ok(ThreeStep::NUMBER) => Ok(Record::ThreeStep(three_step(numbers(words)?))),
        Ok(Certificate::NUMBER) => Ok(Record::Certificate(certificate(numbers(words)?)?)),
        Ok(Notice::NUMBER) => Ok(Record::Notice(notice(numbers(words)?)?)),
        _ => Err(Denied::Syntax),
    }
}
