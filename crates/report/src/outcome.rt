// What a journal's records come to, verification by verification.
ghost use Rattle.report.specs.Outcomes.{outcome_after, waiting};
ghost use Rattle.std.specs.Prelude.{◌≡◌};

use journal::{CertificateFields, Record, Signal};
use method::Verdict;

// The result where the last record stands; without a certificate, how many points wait for one.
#[derive(Clone, Copy, PartialEq, Eq, Debug)]
pub enum Outcome {
    NoCertificate(u32),
    Fit(CertificateFields),
    Unfit(CertificateFields),
    NotBegun(Signal),
}

// How many points wait for a certificate.
fn waiting(outcome: Outcome) -> u32
    ensures { result ≡ waiting outcome }
{
    match outcome {
        Outcome::NoCertificate(points) => points,
        Outcome::Fit(_) | Outcome::Unfit(_) | Outcome::NotBegun(_) => 0,
    }
}

// The outcome once this record was read too.
pub fn outcome_after(before: Outcome, record: &Record) -> Outcome
    ensures { result ≡ outcome_after before «record».now }
{
    match record {
        Record::Sequence(_) | Record::ThreeStep(_) => Outcome::NoCertificate(waiting(
            before,
        ).saturating_add(1)),
        Record::Certificate(fields) => match fields.verdict {
            Verdict::Fit => Outcome::Fit(*fields),
            Verdict::Unfit => Outcome::Unfit(*fields),
        },
        Record::Notice(fields) => Outcome::NotBegun(fields.failed),
    }
}
