// The calls of a verification, up to the closing of a point.
ghost use Rattle.std.specs.Prelude.{◌≡◌, ◌+◌, ◌≤◌, true, length};
ghost use Rattle.point.specs.Bounds.{Takes, is_open, taken};
ghost use Rattle.point.specs.Phases.{reached};
ghost use Rattle.verification.specs.Calls.{belating, closing, closing_bytes, coding, levelling, one_more, opening};
ghost use Rattle.verification.specs.Ordering.{ended};

use crate::declared::StopRule;
use crate::machine::Verification;
use crate::progress::Progress;
use crate::records::record_of;
use crate::written::Written;
use journal::write_record;
use method::{Plan, Question, Verdict};
use point::{Code, Level, Phase, Setting};
use std::ops::ControlFlow;

impl<M: Plan, S: Plan> Verification<M, S> {
    // Whether every declared point is closed, or an unfit one under the rule that stops there.
    pub(crate) fn has_ended(&self) -> bool
        ensures { result ≡ ended self.now.declared self.now.progress }
    {
        if self.progress.closed >= self.declared.points {
            return true;
        }
        match self.declared.rule {
            StopRule::FirstUnfit => self.progress.unfit > 0,
            StopRule::AllPoints => false,
        }
    }

    // Opens a point: main signal and permitted errors of meter and reference in tenths, agreement in steps.
    pub fn open(
        &mut self,
        signal: i32,
        meter: i32,
        reference: i32,
        agreement: i32,
    ) -> Result<(), Question>
        ensures answer { result ≡ (opening self.old.declared self.old.progress signal meter reference agreement).answer }
        ensures after { self.new ≡ record self.old { progress = (opening self.old.declared self.old.progress signal meter reference agreement).after } }
    {
        if self.has_ended() {
            return Err(Question::NotEnded);
        }
        let Phase::Waiting = self.progress.phase else {
            return Err(Question::NoPointOpen);
        };
        let setting = Setting::new(signal, meter, reference, agreement)?;
        self.progress.phase = Phase::opened(setting);
        Ok(())
    }

    // What is to be set: the level, the number of the coming observation, and the soonest fit.
    pub fn level(&self) -> Result<Level, Question>
        ensures { result ≡ levelling (M.Plan.meaning self.now.main) (S.Plan.meaning self.now.short) self.now.declared self.now.progress }
    {
        if self.has_ended() {
            return Err(Question::NotEnded);
        }
        match self.progress.phase {
            Phase::Waiting => Err(Question::PointOpen),
            Phase::Settling(u) => {
                let control = self.declared.control;
                let carried = self.progress.carried;
                let signal = u.setting.signal;
                Ok(self.plans.settling_level(control, carried, signal))
            }
            Phase::Observing(a) => Ok(self.plans.observing_level(a.trial)),
            Phase::Decided(_) => Err(Question::Undecided),
        }
    }

    // Takes a code of the meter, and answers how the point is decided, if it is now.
    pub fn code(&mut self, code: i32) -> Result<Option<Verdict>, Question>
        ensures answer { result ≡ (coding (M.Plan.meaning self.old.main) (S.Plan.meaning self.old.short) self.old.declared self.old.progress code).answer }
        ensures after { self.new ≡ record self.old { progress = (coding (M.Plan.meaning self.old.main) (S.Plan.meaning self.old.short) self.old.declared self.old.progress code).after } }
    {
        if self.has_ended() {
            return Err(Question::NotEnded);
        }
        let control = self.declared.control;
        let Progress { carried, phase, .. } = self.progress;
        match phase {
            Phase::Waiting => Err(Question::PointOpen),
            Phase::Decided(_) => Err(Question::Undecided),
            Phase::Settling(u) => {
                Code::new(code)?;
                let next = self.plans.settle_with_steps(control, carried, u, code);
                Ok(self.counted(next))
            }
            Phase::Observing(a) => {
                let code = Code::new(code)?;
                match self.plans.observe(control, carried.dominance, a, code) {
                    ControlFlow::Continue(after) => Ok(self.counted(Phase::Observing(after))),
                    ControlFlow::Break(next) => Ok(self.counted(next)),
                }
            }
        }
    }

    // Counts one more code, which leads to `next`.
    fn counted(&mut self, next: Phase) -> Option<Verdict>
        requires open { is_open self.old.progress.phase ≡ true }
        requires takes { Takes (taken self.old.progress.phase + 1) next }
        requires few { taken next ≤ 296 }
        ensures answer { result ≡ reached next }
        ensures after { self.new ≡ record self.old { progress = one_more self.old.progress next } }
    {
        self.progress.codes += 1;
        let verdict = next.verdict();
        self.progress.phase = next;
        verdict
    }

    // Ends the settling for want of time.
    pub fn late(&mut self) -> Result<Option<Verdict>, Question>
        ensures answer { result ≡ (belating (M.Plan.meaning self.old.main) (S.Plan.meaning self.old.short) self.old.declared self.old.progress).answer }
        ensures after { self.new ≡ record self.old { progress = (belating (M.Plan.meaning self.old.main) (S.Plan.meaning self.old.short) self.old.declared self.old.progress).after } }
    {
        if self.has_ended() {
            return Err(Question::NotEnded);
        }
        let Progress { carried, phase, .. } = self.progress;
        match phase {
            Phase::Waiting => Err(Question::PointOpen),
            Phase::Settling(u) => {
                let control = self.declared.control;
                self.progress.phase = self.plans.settle_late(control, carried, u);
                Ok(None)
            }
            Phase::Observing(_) | Phase::Decided(_) => Err(Question::StillSettling),
        }
    }

    // Closes a decided point: writes its record at the place named.
    pub fn close(&mut self, journal: &mut [u8], place: usize) -> Result<Written, Question>
        ensures answer { result ≡ (closing self.old.declared self.old.progress place (length journal.old)).answer }
        ensures after { self.new ≡ record self.old { progress = (closing self.old.declared self.old.progress place (length journal.old)).after } }
        ensures bytes { journal.new ≡ closing_bytes self.old.declared self.old.progress place journal.old }
    {
        if self.has_ended() {
            return Err(Question::NotEnded);
        }
        let progress = self.progress;
        match &progress.phase {
            Phase::Waiting => Err(Question::PointOpen),
            Phase::Settling(_) | Phase::Observing(_) => Err(Question::Decided),
            Phase::Decided(outcome) => {
                let record = record_of(progress.closed + 1, outcome);
                let length = write_record(journal, place, &record)?;
                self.progress = progress.with(outcome);
                Ok(Written {
                    verdict: outcome.verdict,
                    length,
                })
            }
        }
    }
}
