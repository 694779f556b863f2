// The text of each answer.
ghost use Rattle.commands.specs.Replies.{audit_text, closed_text, is_kept, level_text, norms_text, numbers_text, opening_words, reply_text, run_text, state_text, values_text, verdict_text};
ghost use Rattle.console.specs.Texts.{Grown};
ghost use Rattle.std.specs.Prelude.{◌≡◌, ◌≤◌, [], ◌∷◌, ◌++◌, length, is_some, IfSome, OnOk};

use crate::reply::{Norms, PlanNumbers, Reply, Run};
use console::{push_bytes, push_number};
use itoa::Integer;
use method::Verdict;
use point::Level;
use std::alloc::AllocError;

// A blank and a number.
fn push_spaced<I: Integer>(text: &mut Vec<u8>, number: I) -> Result<(), AllocError>
    ensures { OnOk result (Grown text.old.items (32 ∷ I.text number) text.new.items) }
{
    push_bytes(text, b" ")?;
    push_number(text, number)
}

// By its bytes and not by Display, which has no contract of them.
fn push_verdict(text: &mut Vec<u8>, verdict: Verdict) -> Result<(), AllocError>
    ensures { OnOk result (Grown text.old.items (verdict_text verdict) text.new.items) }
{
    match verdict {
        Verdict::Fit => push_bytes(text, b" fit"),
        Verdict::Unfit => push_bytes(text, b" unfit"),
    }
}

fn push_level(text: &mut Vec<u8>, level: Level) -> Result<(), AllocError>
    ensures { OnOk result (Grown text.old.items (level_text level) text.new.items) }
{
    push_spaced(text, level.tenths)?;
    push_spaced(text, level.observation.unwrap_or(0))?;
    push_spaced(text, level.soonest.unwrap_or(0))
}

fn push_numbers(text: &mut Vec<u8>, numbers: PlanNumbers) -> Result<(), AllocError>
    ensures { OnOk result (Grown text.old.items (numbers_text numbers) text.new.items) }
{
    push_spaced(text, numbers.cut)?;
    push_spaced(text, numbers.cut_number)?;
    push_spaced(text, numbers.margin)?;
    push_spaced(text, numbers.trapezoid)?;
    push_spaced(text, numbers.uniform)
}

fn push_norms(text: &mut Vec<u8>, norms: Norms) -> Result<(), AllocError>
    ensures { OnOk result (Grown text.old.items (norms_text norms) text.new.items) }
{
    push_spaced(text, norms.accept)?;
    push_spaced(text, norms.reject)?;
    push_spaced(text, norms.offset)
}

fn push_closed(text: &mut Vec<u8>, verdict: Verdict, length: usize) -> Result<(), AllocError>
    ensures { OnOk result (Grown text.old.items (closed_text verdict length) text.new.items) }
{
    push_verdict(text, verdict)?;
    push_spaced(text, length)
}

// The verdict of a run, if it has ended.
fn push_state(text: &mut Vec<u8>, verdict: Option<Verdict>) -> Result<(), AllocError>
    ensures { OnOk result (Grown text.old.items (state_text verdict) text.new.items) }
{
    match verdict {
        None => push_bytes(text, b" going"),
        Some(verdict) => push_verdict(text, verdict),
    }
}

fn push_run(text: &mut Vec<u8>, run: Run) -> Result<(), AllocError>
    ensures { OnOk result (Grown text.old.items (run_text run) text.new.items) }
{
    push_spaced(text, run.codes)?;
    push_state(text, run.verdict)
}

fn push_audit(text: &mut Vec<u8>, first_unfit: Run, all_points: Run) -> Result<(), AllocError>
    ensures { OnOk result (Grown text.old.items (audit_text first_unfit all_points) text.new.items) }
{
    push_run(text, first_unfit)?;
    push_run(text, all_points)
}

// The first words of an answer.
fn opening_words(reply: &Reply) -> &'static [u8]
    ensures { result.now ≡ opening_words reply.now }
{
    match *reply {
        Reply::Undecided => b"ok undecided",
        Reply::Notice(_) => b"ok notice",
        Reply::Refused(_) => b"refused",
        Reply::Misuse => b"misuse",
        Reply::Syntax => b"syntax",
        _ => b"ok",
    }
}

// The values behind the first words.
fn push_values(text: &mut Vec<u8>, reply: &Reply) -> Result<(), AllocError>
    ensures { OnOk result (Grown text.old.items (values_text reply.now) text.new.items) }
{
    match *reply {
        Reply::Done | Reply::Undecided | Reply::Misuse | Reply::Syntax => Ok(()),
        Reply::Level(level) => push_level(text, level),
        Reply::Decided(verdict) => push_verdict(text, verdict),
        Reply::Closed(verdict, length) => push_closed(text, verdict, length),
        Reply::Refused(question) => push_spaced(text, question.number()),
        Reply::Notice(signal) => push_spaced(text, i32::from(signal)),
        Reply::Length(length) => push_spaced(text, length),
        Reply::Numbers(numbers) => push_numbers(text, numbers),
        Reply::Norms(norms) => push_norms(text, norms),
        Reply::Audited(first_unfit, all_points) => push_audit(text, first_unfit, all_points),
    }
}

// Puts an answer behind a text.
pub fn push_reply(text: &mut Vec<u8>, reply: &Reply) -> Result<(), AllocError>
    ensures { OnOk result (Grown text.old.items (reply_text reply.now) text.new.items) }
{
    push_bytes(text, opening_words(reply))?;
    push_values(text, reply)
}

// The line of an answer that is always the same, for those that come most often.
pub fn fixed_line(reply: &Reply) -> Option<&'static [u8]>
    ensures kept { is_some result ≡ is_kept reply.now }
    ensures line { IfSome result (λ l. l.now ≡ reply_text reply.now ++ (10 ∷ [])) }
    ensures short { IfSome result (λ l. length l.now ≤ 16) }
{
    match *reply {
        Reply::Undecided => Some(b"ok undecided\n"),
        Reply::Decided(Verdict::Fit) => Some(b"ok fit\n"),
        Reply::Decided(Verdict::Unfit) => Some(b"ok unfit\n"),
        Reply::Done => Some(b"ok\n"),
        _ => None,
    }
}
