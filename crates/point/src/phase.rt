// How far a point is.
ghost use Rattle.point.specs.Bounds.{Takes};
ghost use Rattle.point.specs.Controls.{NamesControl};
ghost use Rattle.point.specs.Phases.{found, opened, reached, state_of};
ghost use Rattle.std.specs.Prelude.{◌≡◌, ◌≤◌};

use crate::setting::Setting;
use control::{Codes, NO_CODES, Tally};
use method::{Question, Verdict};
use std::marker::Model;

// Full control, which has quantity control, or reduced.
#[derive(Clone, Copy, PartialEq, Eq, Debug)]
pub enum Control {
    Full,
    Reduced,
}

impl TryFrom<i32> for Control {
    type Error = Question;

    ghost try_from_gives = { NamesControl };

    fn try_from(number: i32) -> Result<Control, Question> {
        match number {
            1 => Ok(Control::Full),
            2 => Ok(Control::Reduced),
            _ => Err(Question::ControlKindKnown),
        }
    }
}

// Which of the two plans a point begins with.
#[derive(Clone, Copy, PartialEq, Eq, Debug)]
pub enum PlanUsed {
    Main,
    Short,
}

// What the points before leave to a point: the last dominance found, and with which plan it begins under reduced control.
#[derive(Clone, Copy, PartialEq, Eq, Debug)]
pub struct Carried {
    pub dominance: bool,
    pub next: PlanUsed,
}

// What the attempt before a main one came to, if there was one, and how many observations it made.
#[derive(Clone, Copy, PartialEq, Eq, Debug)]
pub enum Before {
    Nothing,
    SequenceAlone(u32),
    QuantityAlone(u32),
    ShortUnfit(u32),
}

// On which plan an attempt runs.
#[derive(Clone, Copy, PartialEq, Eq, Debug)]
pub enum Course {
    Main(Before),
    Short,
}

// A point that still settles: there is room for a code more.
#[derive(Clone, Copy)]
pub struct Unsettled {
    pub setting: Setting,
    pub codes: Codes,
}

impl Model for Unsettled {
    ghost use Rattle.std.specs.Prelude.{◌≤◌};
    ghost use Rattle.point.specs.Values.{Awaiting};

    ghost Value = { Awaiting };

    ghost view = { λ u. record { setting = u.setting; codes = u.codes } };

    ghost invariant = { λ u. u.codes.count ≤ 199 };

    ghost inverse = { λ v. record { setting = v.setting; codes = v.codes } };
}

// An attempt: how many codes the point settled with, the plan, the tolerance D and the numbers so far, each in its range.
#[derive(Clone, Copy)]
pub struct Trial {
    pub setting: Setting,
    pub settled: u32,
    pub course: Course,
    pub width: u32,
    pub tally: Tally,
}

impl Model for Trial {
    ghost use Rattle.point.specs.Values.{Attempt};

    ghost Value = { Attempt };

    ghost use Rattle.point.specs.Bounds.{Within};

    ghost view = { λ a. record { setting = a.setting; settled = a.settled; course = a.course; width = a.width; tally = a.tally } };

    ghost invariant = { λ a. Within (record { setting = a.setting; settled = a.settled; course = a.course; width = a.width; tally = a.tally }) };

    ghost inverse = { λ v. record { setting = v.setting; settled = v.settled; course = v.course; width = v.width; tally = v.tally } };
}

// An attempt that goes on: there is room for an observation more.
#[derive(Clone, Copy)]
pub struct Ongoing {
    pub trial: Trial,
}

impl Model for Ongoing {
    ghost use Rattle.std.specs.Prelude.{◌≤◌};
    ghost use Rattle.point.specs.Values.{Attempt};

    ghost Value = { Attempt };

    ghost view = { λ a. a.trial };

    ghost invariant = { λ a. a.trial.tally.observations ≤ 47 };

    ghost inverse = { λ v. record { trial = v } };
}

// An attempt that has ended, with an observation at least.
#[derive(Clone, Copy)]
pub struct Ended {
    pub trial: Trial,
}

impl Model for Ended {
    ghost use Rattle.std.specs.Prelude.{◌≤◌};
    ghost use Rattle.point.specs.Values.{Attempt};

    ghost Value = { Attempt };

    ghost view = { λ a. a.trial };

    ghost invariant = { λ a. 1 ≤ a.trial.tally.observations };

    ghost inverse = { λ v. record { trial = v } };
}

impl Ended {
    // The attempt with its last observation.
    pub fn attempt(&self) -> Trial
        ensures is { result ≡ self.now }
        ensures made { 1 ≤ self.now.tally.observations }
    {
        self.trial
    }
}

// A decided point: its last attempt, what sequence and quantity control made of that, the dominance then, and the verdict.
#[derive(Clone, Copy)]
pub struct Outcome {
    pub trial: Ended,
    pub sequence: Verdict,
    pub quantity: Option<Verdict>,
    pub dominance: bool,
    pub verdict: Verdict,
}

#[derive(Clone, Copy)]
pub enum Phase {
    Waiting,
    Settling(Unsettled),
    Observing(Ongoing),
    Decided(Outcome),
}

// What is to be set: the level in tenths, the number of the coming observation (none while settling), and the soonest
// observation at which the attempt could end fit.
#[derive(Clone, Copy, PartialEq, Eq, Debug)]
pub struct Level {
    pub tenths: i32,
    pub observation: Option<u32>,
    pub soonest: Option<u32>,
}

// How far a point is, without its numbers.
#[derive(Clone, Copy, PartialEq, Eq, Debug)]
pub enum State {
    Waiting,
    Settling,
    Observing,
    Decided(Verdict),
}

impl State {
    // How a point in this state was decided, if it was.
    pub fn verdict(self) -> Option<Verdict>
        ensures { result ≡ found self }
    {
        match self {
            State::Decided(verdict) => Some(verdict),
            _ => None,
        }
    }
}

impl Phase {
    // A point just opened.
    pub fn opened(setting: Setting) -> Phase
        ensures is { result ≡ opened setting }
        ensures takes { Takes 0 result }
    {
        Phase::Settling(Unsettled {
            setting,
            codes: NO_CODES,
        })
    }

    // How far the point is.
    pub fn state(&self) -> State
        ensures { result ≡ state_of self.now }
    {
        match self {
            Phase::Waiting => State::Waiting,
            Phase::Settling(_) => State::Settling,
            Phase::Observing(_) => State::Observing,
            Phase::Decided(outcome) => State::Decided(outcome.verdict),
        }
    }

    // How the point was decided, if it was.
    pub fn verdict(&self) -> Option<Verdict>
        ensures { result ≡ reached self.now }
    {
        self.state().verdict()
    }
}
