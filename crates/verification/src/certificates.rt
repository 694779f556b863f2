// The certificate of a verification that has ended. It spends the verification.
ghost use Rattle.std.specs.Prelude.{◌≡◌, true, length, Ok, Err, MatchResult};
ghost use Rattle.journal.specs.Journal.{legal_record};
ghost use Rattle.verification.specs.Certificates.{certificate_record, certifying, certifying_bytes, instrument_verdict};
ghost use Rattle.verification.specs.Ordering.{ended};

use crate::machine::Verification;
use crate::written::Written;
use journal::{CertificateFields, Record, write_record};
use method::{Plan, Question, Verdict};

impl<M: Plan, S: Plan> Verification<M, S> {
    // The instrument is fit when every declared point was closed fit.
    fn verdict(&self) -> Verdict
        ensures { result ≡ instrument_verdict self.now.declared self.now.progress }
    {
        Verdict::from(self.progress.unfit == 0 && self.progress.closed == self.declared.points)
    }

    // The certificate as a record. Its fields are in range, and `as` is proved to lose nothing.
    fn certificate(&self) -> Record
        requires { ended self.now.declared self.now.progress ≡ true }
        ensures is { result ≡ certificate_record self.now.declared self.now.progress }
        ensures legal { legal_record result ≡ true }
    {
        Record::Certificate(CertificateFields {
            declared: self.declared.points as i32,
            closed: self.progress.closed as i32,
            unfit: self.progress.unfit as i32,
            verdict: self.verdict(),
            codes_accepted: self.progress.codes as i32,
        })
    }

    // Writes the certificate at the place named. Refused, it gives the verification back as it was.
    pub fn certify(
        self,
        journal: &mut [u8],
        place: usize,
    ) -> Result<Written, (Question, Verification<M, S>)>
        ensures answer { MatchResult result (λ k. certifying self.declared self.progress place (length journal.old) ≡ Ok k) (λ e. (certifying self.declared self.progress place (length journal.old) ≡ Err e.0) × (e.1 ≡ self)) }
        ensures bytes { journal.new ≡ certifying_bytes self.declared self.progress place journal.old }
    {
        if !self.has_ended() {
            return Err((Question::Ended, self));
        }
        let record = self.certificate();
        match write_record(journal, place, &record) {
            Ok(length) => Ok(Written {
                verdict: self.verdict(),
                length,
            }),
            Err(question) => Err((question, self)),
        }
    }
}
