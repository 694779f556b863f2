// The manual stage: three signals in order, each a type that its report spends.
ghost use Rattle.journal.specs.Journal.{record_bytes};
ghost use Rattle.journal.specs.Writing.{answered, laid};
ghost use Rattle.journal.specs.declared.codes.Signal.TheVariants as signal;
ghost use Rattle.method.specs.Refusals.{refused_by};
ghost use Rattle.verification.specs.Calls.{fresh};
ghost use Rattle.verification.specs.Manual.{notice_of, notice_record};
ghost use Rattle.std.specs.Prelude.{◌≡◌, true, length, None};

use crate::machine::Verification;
use crate::notice::{Check, Notice};
use crate::orders::Orders;
use crate::progress::Progress;
use journal::{NoticeFields, Record, Signal, write_record};
use method::{Plan, Question};
use point::{Carried, Phase, PlanUsed, Plans};

// Nothing is reported yet.
#[derive(Drop)]
pub struct Inspection(());

// The inspection passed.
#[derive(Drop)]
pub struct Trial(());

// Inspection and trial passed.
#[derive(Drop)]
pub struct Insulation(());

// All three signals passed: orders begin the automatic stage.
#[derive(Drop)]
pub struct Ready(());

// What follows a signal that passed, or the notice of one that failed.
fn judged<T: Drop>(check: Check, signal: Signal, next: T) -> Result<T, Notice>
    ensures { refused_by result ≡ notice_of signal check }
{
    match check {
        Check::Passed => Ok(next),
        Check::Failed => Err(Notice { failed: signal }),
    }
}

// Each stage has a type and a report of its own, so that it is reported once and in its order; what a report comes to is common.
impl Inspection {
    // The start of the manual stage.
    pub fn begin() -> Inspection {
        Inspection(())
    }

    pub fn report(self, check: Check) -> Result<Trial, Notice>
        ensures { refused_by result ≡ notice_of signal.Inspection check }
    {
        let Inspection(_) = self;
        judged(check, Signal::Inspection, Trial(()))
    }

    // The whole manual stage, passed.
    pub fn all_passed() -> Result<Ready, Notice>
        ensures { refused_by result ≡ None }
    {
        let trial = Inspection::begin().report(Check::Passed)?;
        let insulation = trial.report(Check::Passed)?;
        insulation.report(Check::Passed)
    }
}

impl Trial {
    pub fn report(self, check: Check) -> Result<Insulation, Notice>
        ensures { refused_by result ≡ notice_of signal.Trial check }
    {
        let Trial(_) = self;
        judged(check, Signal::Trial, Insulation(()))
    }
}

impl Insulation {
    pub fn report(self, check: Check) -> Result<Ready, Notice>
        ensures { refused_by result ≡ notice_of signal.Insulation check }
    {
        let Insulation(_) = self;
        judged(check, Signal::Insulation, Ready(()))
    }
}

impl Ready {
    // The automatic stage, by accepted orders. A caller has the two plans apart.
    pub fn start<M: Plan, S: Plan>(self, orders: Orders, main: M, short: S) -> Verification<M, S>
        ensures { result ≡ record { main = main; short = short; declared = orders.declared; progress = fresh } }
    {
        let Ready(_) = self;
        Verification {
            plans: Plans { main, short },
            declared: orders.declared,
            progress: Progress {
                closed: 0,
                unfit: 0,
                codes: 0,
                carried: Carried {
                    dominance: false,
                    next: PlanUsed::Main,
                },
                phase: Phase::Waiting,
            },
        }
    }
}

impl Notice {
    // Writes the notice as a record at the place named, and answers its length.
    pub fn write(&self, journal: &mut [u8], place: usize) -> Result<usize, Question>
        ensures answer { result ≡ answered true (length (record_bytes (notice_record self.now))) place (length journal.old) }
        ensures bytes { journal.new ≡ laid true (record_bytes (notice_record self.now)) place journal.old }
    {
        let record = Record::Notice(NoticeFields {
            failed: self.failed,
        });
        write_record(journal, place, &record)
    }
}
