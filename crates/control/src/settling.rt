// Settling of a new point's codes.
ghost use Rattle.std.specs.Prelude.{◌≡◌, ◌<◌, ◌≤◌, pos, IfOk, Some, None, unsigned_abs};
ghost use Rattle.std.specs.ControlFlow.{MatchControlFlow, break_value};
ghost use Rattle.control.specs.Settlings.{SettlesFirst, agree, agreement_refusal, near, no_codes, settled_at, settled_by, settling_end, with_code};
ghost use Rattle.method.specs.Refusals.{refused_by};

use crate::codes::{Codes, NO_CODES, Settled, SettledBy};
use method::Question;
use method::measures::AGREEMENT_MAX;
use std::ops::ControlFlow;

// The last settling code that a point may have.
const LAST_CODE: u32 = 200;

// A point that still settles: there is room for a code more.
#[derive(Drop)]
pub struct Settling {
    pub(crate) agreement: u32,
    pub(crate) codes: Codes,
    ghost narrow: { agreement ≤ 9 },
    ghost room: { codes.count < 200 },
}

fn are_near(agreement: u32, a: i32, b: i32) -> bool
    ensures { result ≡ near agreement a b }
{
    a.abs_diff(b) <= agreement
}

// Whether three codes agree, each with each.
fn all_agree(agreement: u32, a: i32, b: i32, c: i32) -> bool
    ensures { result ≡ agree agreement a b c }
{
    are_near(agreement, a, b) && are_near(agreement, a, c) && are_near(agreement, b, c)
}

// How the i-th code ends the settling, if it does; the latest is a, and b and c were before it.
fn settled_at(agreement: u32, i: u32, a: i32, b: i32, c: i32) -> Option<SettledBy>
    ensures is { result ≡ settled_at agreement i a b c }
    ensures room { result ≡ None → i < 200 }
{
    if i >= 3 && all_agree(agreement, a, b, c) {
        Some(SettledBy::Agreement)
    } else if i >= LAST_CODE {
        Some(SettledBy::LastCode)
    } else {
        None
    }
}

// The settling codes with one more, and the end of settling if that brings it.
pub fn settled_with(agreement: u32, codes: Codes, code: i32) -> (Codes, Option<SettledBy>)
    requires { codes.count < 200 }
    ensures codes { result.0 ≡ with_code codes code }
    ensures by { result.1 ≡ settled_by agreement codes code }
    ensures room { result.1 ≡ None → result.0.count < 200 }
{
    let after = Codes {
        count: codes.count + 1,
        last: code,
        previous: codes.last,
    };
    let by = settled_at(agreement, after.count, code, codes.last, codes.previous);
    (after, by)
}

impl Settling {
    // Codes agree within the agreement, 0 to 9 steps.
    pub fn new(agreement: i32) -> Result<Settling, Question>
        ensures refuses { refused_by result ≡ agreement_refusal agreement }
        ensures makes { IfOk result (λ s. (pos s.agreement ≡ agreement) × (s.codes ≡ no_codes)) }
    {
        if !(0..=AGREEMENT_MAX).contains(&agreement) {
            return Err(Question::AgreementInRange);
        }
        Ok(Settling {
            agreement: agreement.unsigned_abs(),
            codes: NO_CODES,
        })
    }

    // How many settling codes there were so far.
    pub fn count(&self) -> u32
        ensures { result ≡ self.now.codes.count }
    {
        self.codes.count
    }

    // One settling code more.
    pub fn take(self, code: i32) -> ControlFlow<Settled, Settling>
        ensures { MatchControlFlow result (λ s. (s.codes ≡ with_code self.codes code) × (None ≡ settled_by self.agreement self.codes code) × (s.agreement ≡ self.agreement)) (λ s. (s.codes ≡ (with_code self.codes code).count) × (Some s.by ≡ settled_by self.agreement self.codes code)) }
    {
        let (codes, by) = settled_with(self.agreement, self.codes, code);
        match by {
            None => ControlFlow::Continue(Settling {
                agreement: self.agreement,
                codes,
            }),
            Some(by) => ControlFlow::Break(Settled {
                by,
                codes: codes.count,
            }),
        }
    }

    // These codes more, one by one, until settling ends or none is left.
    fn through(self, codes: &[i32]) -> ControlFlow<Settled, Settling>
        ensures { break_value result ≡ settling_end self.agreement self.codes codes.now }
    {
        let mut settling = self;
        for code in codes {
            settling = settling.take(*code)?;
        }
        ControlFlow::Continue(settling)
    }
}

// Where and how settling over these codes ends, if they bring it to its end.
pub fn settle(agreement: i32, codes: &[i32]) -> Result<Option<Settled>, Question>
    ensures refuses { refused_by result ≡ agreement_refusal agreement }
    ensures is { IfOk result (λ s. s ≡ settling_end (unsigned_abs agreement) no_codes codes.now) }
    ensures first { IfOk result (λ s. SettlesFirst (unsigned_abs agreement) codes.now s) }
{
    let settling = Settling::new(agreement)?;
    Ok(settling.through(codes).break_value())
}
