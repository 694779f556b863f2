// The automatic stage: a verification that runs, and what it was ordered with.
use crate::denied::Denied;
use commands::{Reply, Run};
use console::ChosenPlan;
use method::Verdict;
use runs::{Call, Outcome, audit};
use std::alloc::Global;
use verification::{Inspection, Orders, Ready, Verification, Written};

// What a verification is ordered with, but for its stop rule. Numbers as they are typed: whether a control of that number
// is known is a question.
#[derive(Clone, Copy)]
pub struct Ordered {
    pub points: i32,
    pub control: i32,
    pub main: ChosenPlan,
    pub short: ChosenPlan,
}

#[derive(Drop)]
pub struct Automatic {
    // none only while its certificate is being written
    running: Option<Verification<ChosenPlan, ChosenPlan>>,
    ordered: Ordered,
}

fn decision(verdict: Option<Verdict>) -> Reply {
    verdict.map_or(Reply::Undecided, Reply::Decided)
}

// What a run came to.
fn come_to(outcome: Outcome) -> Run {
    Run {
        codes: u32::try_from(outcome.codes).unwrap_or(u32::MAX),
        verdict: outcome.certificate.ok().map(|written| written.verdict),
    }
}

impl Automatic {
    pub fn start(ready: Ready, orders: Orders, ordered: Ordered) -> Automatic {
        Automatic {
            running: Some(ready.start(orders, ordered.main, ordered.short)),
            ordered,
        }
    }

    // Makes a call.
    pub fn call(&mut self, call: Call, journal: &mut [u8]) -> Result<Reply, Denied> {
        let running = self.running.as_mut().ok_or(Denied::Misuse)?;
        match call {
            Call::Open {
                signal,
                meter,
                reference,
                agreement,
            } => {
                running.open(signal, meter, reference, agreement)?;
                Ok(Reply::Done)
            }
            Call::Level => Ok(Reply::Level(running.level()?)),
            Call::Code(code) => Ok(decision(running.code(code)?)),
            Call::Late => Ok(decision(running.late()?)),
            Call::Close(place) => {
                let written = running.close(journal, place)?;
                Ok(Reply::Closed(written.verdict, written.length))
            }
        }
    }

    // The certificate spends the verification; a refused one gives it back.
    pub fn certify(&mut self, journal: &mut [u8], place: usize) -> Result<Written, Denied> {
        let running = self.running.take().ok_or(Denied::Misuse)?;
        running.certify(journal, place).map_err(|(question, running)| {
            self.running = Some(running);
            Denied::Refused(question)
        })
    }

    // What calls come to under each stop rule, with a scratch buffer of a length.
    pub fn audit(&self, heap: Global, calls: &[Call], length: usize) -> Result<Reply, Denied> {
        let mut scratch = vec![in heap; 0u8; length]?;
        let ordered = self.ordered;
        let audited = audit(
            Inspection::all_passed().unwrap(),
            Inspection::all_passed().unwrap(),
            ordered.points,
            ordered.control,
            ordered.main,
            ordered.short,
            calls,
            scratch.as_mut_slice(),
            0,
        )?;
        Ok(Reply::Audited(come_to(audited.first_unfit), come_to(audited.all_points)))
    }
}
