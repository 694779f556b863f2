// Certificates, notices and faults, and the sentence of a verification's result.
use journal::{CertificateFields, Fault, NoticeFields};
use report::Outcome;
use std::io;
use std::io::Write;

pub fn print_certificate(out: &mut impl Write, fields: &CertificateFields) -> io::Result<()> {
    let declared = fields.declared;
    let closed = fields.closed;
    let unfit = fields.unfit;
    let codes = fields.codes_accepted;
    let verdict = fields.verdict;
    writeln!(out, "Certificate")?;
    writeln!(out, "  points declared: {declared}")?;
    writeln!(out, "  points closed: {closed}")?;
    writeln!(out, "  points unfit: {unfit}")?;
    writeln!(out, "  codes accepted: {codes}")?;
    writeln!(out, "  verdict: {verdict}")
}

pub fn print_notice(out: &mut impl Write, fields: &NoticeFields) -> io::Result<()> {
    let failed = fields.failed;
    writeln!(out, "Notice")?;
    writeln!(out, "  failed: {failed}")
}

pub fn print_fault(out: &mut impl Write, fault: Fault) -> io::Result<()> {
    let ordinal = fault.place.ordinal;
    let first = fault.place.first_byte;
    let layer = fault.layer;
    let number = fault.question.number();
    let question = fault.question;
    writeln!(
        out,
        "Record {ordinal}, at byte {first}, cannot be read: {question} No (question {number}, layer {layer})."
    )
}

// The word that goes with so many.
fn by_number(count: i32, one: &'static str, many: &'static str) -> &'static str {
    if count == 1 { one } else { many }
}

fn print_fit(out: &mut impl Write, fields: CertificateFields) -> io::Result<()> {
    let declared = fields.declared;
    if declared == 1 {
        write!(
            out,
            "The instrument is fit: the one declared point was closed fit"
        )?;
    } else {
        write!(
            out,
            "The instrument is fit: all {declared} declared points were closed fit"
        )?;
    }
    print_codes(out, fields.codes_accepted)
}

// A certificate is unfit with no unfit point only where not all points were closed.
fn print_unfit(out: &mut impl Write, fields: CertificateFields) -> io::Result<()> {
    let declared = fields.declared;
    let closed = fields.closed;
    let unfit = fields.unfit;
    write!(out, "The instrument is unfit: ")?;
    if unfit == 0 {
        let were = by_number(closed, "was", "were");
        write!(
            out,
            "only {closed} of {declared} declared points {were} closed"
        )?;
    } else {
        let points = by_number(closed, "point", "points");
        let are = by_number(unfit, "is", "are");
        write!(
            out,
            "{unfit} of {closed} closed {points} {are} unfit, of {declared} declared"
        )?;
    }
    print_codes(out, fields.codes_accepted)
}

fn print_codes(out: &mut impl Write, accepted: i32) -> io::Result<()> {
    let codes = by_number(accepted, "code", "codes");
    writeln!(out, ", with {accepted} {codes}.")
}

// The result in one sentence, behind the record that ends a verification.
pub fn print_result(out: &mut impl Write, outcome: Outcome) -> io::Result<()> {
    match outcome {
        Outcome::Fit(fields) => print_fit(out, fields),
        Outcome::Unfit(fields) => print_unfit(out, fields),
        Outcome::NotBegun(failed) => {
            writeln!(out, "The verification did not begin: the {failed} failed.")
        }
        Outcome::NoCertificate(_) => Ok(()),
    }
}

// That a result is wanting, at the end of a journal.
pub fn print_lack(out: &mut impl Write, outcome: Outcome) -> io::Result<()> {
    match outcome {
        Outcome::NoCertificate(0) => writeln!(out, "There is no certificate, and so no result."),
        Outcome::NoCertificate(1) => writeln!(out, "1 point has no certificate, and so no result."),
        Outcome::NoCertificate(points) => writeln!(
            out,
            "{points} points have no certificate, and so no result."
        ),
        Outcome::Fit(_) | Outcome::Unfit(_) | Outcome::NotBegun(_) => Ok(()),
    }
}
