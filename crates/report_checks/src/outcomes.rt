// What records come to, one behind another.
use journal::{CertificateFields, NoticeFields, Record, Signal, ThreeStepFields};
use method::Verdict;
use report::{Outcome, outcome_after};

fn certificate(unfit: i32, verdict: Verdict) -> CertificateFields {
    CertificateFields {
        declared: 2,
        closed: 2,
        unfit,
        verdict,
        codes_accepted: 36,
    }
}

#[test]
fn results(rt: HostRuntime) {
    let point = Record::ThreeStep(ThreeStepFields {
        point: 1,
        settling_codes: 3,
        tolerance: 840_000,
        sum: 0,
    });
    let one = outcome_after(Outcome::NoCertificate(0), &point);
    assert_eq!(rt; one, Outcome::NoCertificate(1));
    let two = outcome_after(one, &point);
    assert_eq!(rt; two, Outcome::NoCertificate(2));
    let fields = certificate(0, Verdict::Fit);
    let fit = outcome_after(two, &Record::Certificate(fields));
    assert_eq!(rt; fit, Outcome::Fit(fields));
    assert_eq!(rt; outcome_after(fit, &point), Outcome::NoCertificate(1));
    let fields = certificate(1, Verdict::Unfit);
    let unfit = outcome_after(two, &Record::Certificate(fields));
    assert_eq!(rt; unfit, Outcome::Unfit(fields));
    let failed = Signal::Trial;
    assert_eq!(rt;
        outcome_after(unfit, &Record::Notice(NoticeFields { failed })),
        Outcome::NotBegun(failed)
    );
}
