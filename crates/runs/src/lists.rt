// A list of calls on a new verification, and then its certificate.
ghost use Rattle.std.specs.Prelude.{◌≡◌, ◌≤◌, length, slice_set};
ghost use Rattle.runs.specs.Answers.{accepts_code, codes_accepted, overlaid};
ghost use Rattle.runs.specs.Laws.{Laws};
ghost use Rattle.runs.specs.Runs.{answer_to, answers_to, bytes_after, bytes_left, came, journal_of, outcome_of, step};
ghost use Rattle.verification.specs.Calls.{fresh};
ghost use Rattle.verification.specs.Certificates.{certifying, certifying_bytes};

use crate::answer::Answer;
use crate::call::Call;
use crate::outcome::Outcome;
use method::{Plan, Question};
use verification::{Orders, Ready, Verification, Written};

// Makes one call of a list, with the journal that the run was lent.
fn make<M: Plan, S: Plan>(v: &mut Verification<M, S>, call: Call, journal: &mut [u8]) -> Answer
    ensures answer { result ≡ answer_to (M.Plan.meaning v.old.main) (S.Plan.meaning v.old.short) v.old.declared (length journal.old) v.old.progress call }
    ensures after { v.new ≡ record v.old { progress = step (M.Plan.meaning v.old.main) (S.Plan.meaning v.old.short) v.old.declared (length journal.old) v.old.progress call } }
    ensures bytes { journal.new ≡ bytes_after v.old.declared v.old.progress call journal.old }
{
    match call {
        Call::Open {
            signal,
            meter,
            reference,
            agreement,
        } => Answer::Opened(v.open(signal, meter, reference, agreement)),
        Call::Level => Answer::Leveled(v.level()),
        Call::Code(code) => Answer::Coded(v.code(code)),
        Call::Late => Answer::Belated(v.late()),
        Call::Close(place) => Answer::Closed(v.close(journal, place)),
    }
}

// Whether a code was accepted.
fn accepts_code(answer: Answer) -> bool
    ensures { result ≡ accepts_code answer }
{
    matches!(answer, Answer::Coded(Ok(_)))
}

// Notes the answer in its place, if there is one.
fn note(answers: &mut [Answer], place: usize, answer: Answer)
    ensures { answers.new ≡ slice_set answers.old place answer }
{
    if place < answers.len() {
        answers[place] = answer;
    }
}

// Makes each call of a list, notes the answers, and counts the codes accepted.
fn make_all<M: Plan, S: Plan>(
    v: &mut Verification<M, S>,
    calls: &[Call],
    answers: &mut [Answer],
    journal: &mut [u8],
) -> usize
    ensures codes { result ≡ codes_accepted (answers_to (M.Plan.meaning v.old.main) (S.Plan.meaning v.old.short) v.old.declared (length journal.old) v.old.progress calls.now) }
    ensures answers { answers.new ≡ overlaid (answers_to (M.Plan.meaning v.old.main) (S.Plan.meaning v.old.short) v.old.declared (length journal.old) v.old.progress calls.now) answers.old }
    ensures after { v.new ≡ record v.old { progress = came (M.Plan.meaning v.old.main) (S.Plan.meaning v.old.short) v.old.declared (length journal.old) v.old.progress calls.now } }
    ensures bytes { journal.new ≡ bytes_left (M.Plan.meaning v.old.main) (S.Plan.meaning v.old.short) v.old.declared (length journal.old) v.old.progress calls.now journal.old }
{
    let mut codes = 0;
    for (i, call) in calls.iter().enumerate() {
        let answer = make(v, *call, journal);
        note(answers, i, answer);
        if accepts_code(answer) {
            codes += 1;
        }
    }
    codes
}

// The certificate, if it can be written.
fn finish<M: Plan, S: Plan>(
    v: Verification<M, S>,
    journal: &mut [u8],
    place: usize,
) -> Result<Written, Question>
    ensures answer { result ≡ certifying v.declared v.progress place (length journal.old) }
    ensures bytes { journal.new ≡ certifying_bytes v.declared v.progress place journal.old }
{
    v.certify(journal, place).map_err(|(question, _)| question)
}

// Makes each call of a list on a new verification, and then writes the certificate at the place named, if it has ended.
// The answers are laid over the row lent, as far as it goes. What holds of every run is among the promises.
pub fn run<M: Plan, S: Plan>(
    ready: Ready,
    orders: Orders,
    main: M,
    short: S,
    calls: &[Call],
    answers: &mut [Answer],
    journal: &mut [u8],
    place: usize,
) -> Outcome
    ensures outcome { result ≡ outcome_of (M.Plan.meaning main) (S.Plan.meaning short) orders.declared (length journal.old) place calls.now }
    ensures answers { answers.new ≡ overlaid (answers_to (M.Plan.meaning main) (S.Plan.meaning short) orders.declared (length journal.old) fresh calls.now) answers.old }
    ensures bytes { journal.new ≡ journal_of (M.Plan.meaning main) (S.Plan.meaning short) orders.declared place calls.now journal.old }
    ensures laws { Laws (M.Plan.meaning main) (S.Plan.meaning short) }
{
    let mut verification = ready.start(orders, main, short);
    let codes = make_all(&mut verification, calls, answers, journal);
    let certificate = finish(verification, journal, place);
    Outcome { codes, certificate }
}
