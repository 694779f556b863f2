// What a point is tried with.
ghost use Rattle.point.specs.Settings.{as_given, setting_refusal};
ghost use Rattle.method.specs.Refusals.{refused_by};
ghost use Rattle.std.specs.Prelude.{◌≡◌, IfOk};

use control::Permitted;
use method::Question;
use method::measures::{AGREEMENT_MAX, SIGNAL_MAX};
use std::marker::Model;

// The main signal and the permitted errors of meter and reference in tenths, and the agreement in steps, each in its range.
#[derive(Clone, Copy)]
pub struct Setting {
    pub signal: i32,
    pub meter: u32,
    pub reference: u32,
    pub agreement: u32,
}

impl Model for Setting {
    ghost use Rattle.point.specs.Values.{Given};

    ghost Value = { Given };

    ghost use Rattle.point.specs.Bounds.{Set};

    ghost view = { λ g. record { signal = g.signal; meter = g.meter; reference = g.reference; agreement = g.agreement } };

    ghost invariant = { λ g. Set (record { signal = g.signal; meter = g.meter; reference = g.reference; agreement = g.agreement }) };

    ghost inverse = { λ v. record { signal = v.signal; meter = v.meter; reference = v.reference; agreement = v.agreement } };
}

impl Setting {
    // The numbers as a setting, where each is in its range.
    pub fn new(signal: i32, meter: i32, reference: i32, agreement: i32) -> Result<Setting, Question>
        ensures refuses { refused_by result ≡ setting_refusal signal meter reference agreement }
        ensures makes { IfOk result (λ g. g ≡ as_given signal meter reference agreement) }
    {
        // Not by `contains`: the clause of the refusals behind did not close.
        if signal < -SIGNAL_MAX || signal > SIGNAL_MAX {
            return Err(Question::SignalInRange);
        }
        let permitted = Permitted::new(meter, reference)?;
        if !(0..=AGREEMENT_MAX).contains(&agreement) {
            return Err(Question::AgreementInRange);
        }
        Ok(Setting {
            signal,
            meter: permitted.meter(),
            reference: permitted.reference(),
            agreement: agreement.unsigned_abs(),
        })
    }
}
