// The stages of a verification, one at a time.
use crate::automatic::Automatic;
use crate::denied::Denied;
use commands::Reply;
use journal::Signal;
use std::mem::replace;
use verification::{Check, Inspection, Insulation, Notice, Ready, Trial};

#[derive(Drop)]
pub enum Stage {
    // apart from the automatic stage, so that a step of it moves a few bytes, and no verification
    Manual(Manual),
    // orders began the automatic stage
    Automatic(Automatic),
}

impl Stage {
    // The manual stage at its start.
    pub fn start() -> Stage {
        Stage::Manual(Manual::start())
    }
}

// The manual stage.
#[derive(Drop)]
pub enum Manual {
    Inspection(Inspection),
    Trial(Trial),
    Insulation(Insulation),
    Failed(Notice),
    Ready(Ready),
}

impl Manual {
    fn start() -> Manual {
        Manual::Inspection(Inspection::begin())
    }

    // Goes on by a signal, and answers it. One out of its order changes nothing.
    pub fn report(&mut self, signal: Signal, check: Check) -> Result<Reply, Denied> {
        let (stage, done) = replace(self, Manual::start()).reported(signal, check);
        *self = stage;
        done
    }

    fn reported(self, signal: Signal, check: Check) -> (Manual, Result<Reply, Denied>) {
        let stage = match (self, signal) {
            (Manual::Inspection(stage), Signal::Inspection) => stage
                .report(check)
                .map_or_else(Manual::Failed, Manual::Trial),
            (Manual::Trial(stage), Signal::Trial) => stage
                .report(check)
                .map_or_else(Manual::Failed, Manual::Insulation),
            (Manual::Insulation(stage), Signal::Insulation) => stage
                .report(check)
                .map_or_else(Manual::Failed, Manual::Ready),
            (stage, _) => return (stage, Err(Denied::Misuse)),
        };
        let reply = match &stage {
            Manual::Failed(notice) => Reply::Notice(notice.failed),
            _ => Reply::Done,
        };
        (stage, Ok(reply))
    }

    // The passed signals, which orders spend. Where they have not passed, nothing changes.
    pub fn spend(&mut self) -> Option<Ready> {
        match replace(self, Manual::start()) {
            Manual::Ready(ready) => Some(ready),
            stage => {
                *self = stage;
                None
            }
        }
    }
}
