// A session: the stage, the two plans and the journal.
use crate::automatic::{Automatic, Ordered};
use crate::calls::Calls;
use crate::denied::Denied;
use crate::hexadecimal::{overwrite, push_dump};
use crate::output::Output;
use crate::record_text::push_reading;
use crate::record_words::parse_record;
use crate::stage::{Manual, Stage};
use commands::{
    Command, Line, Norms, PlanNumbers, Reply, Role, fixed_line, parse_line, push_reply,
};
use console::{ChosenPlan, Words, parse_plan};
use journal::{Signal, write_record};
use method::{Plan, ThreeStep};
use runs::Call;
use std::alloc::{AllocError, Global};
use std::io::Write;
use verification::{Check, Orders};

// The longest journal that a session has room for.
const JOURNAL_MAX: usize = 65_536;

// What a new journal is filled with.
const BLANK: u8 = 0xAA;

#[derive(Drop)]
pub struct Session {
    heap: Global,
    main: ChosenPlan,
    short: ChosenPlan,
    journal: Vec<u8>,
    stage: Stage,
    calls: Calls,
    // an answer that is put together
    text: Vec<u8>,
}

fn numbers(plan: ChosenPlan) -> Reply {
    Reply::Numbers(PlanNumbers {
        cut: plan.cut(),
        cut_number: plan.cut_number(),
        margin: plan.margin(),
        trapezoid: plan.trapezoid_k(),
        uniform: plan.uniform_k(),
    })
}

fn norms(plan: ChosenPlan, i: u32) -> Reply {
    Reply::Norms(Norms {
        accept: plan.accept_number(i),
        reject: plan.reject_number(i),
        offset: plan.offset(i),
    })
}

impl Session {
    // Normal control with three-step as the short plan, and a journal with no room.
    pub fn new(heap: Global) -> Session {
        Session {
            heap,
            main: ChosenPlan::standard(method::Line::Normal),
            short: ChosenPlan::Short(ThreeStep),
            journal: Vec::new(heap),
            stage: Stage::start(),
            calls: Calls::new(heap),
            text: Vec::new(heap),
        }
    }

    // Puts out the answer to a line; blank lines and comments have none. Where there is no memory for it nothing of it is put out.
    pub fn answer<W: Write + Drop>(
        &mut self,
        line: &[u8],
        out: &mut Output<W>,
    ) -> Result<(), AllocError> {
        match parse_line(line) {
            Line::Silent => Ok(()),
            Line::Syntax => self.say(&Reply::Syntax, out),
            Line::Command(command) => self.perform(command, line, out),
        }
    }

    // Puts out an answer, whose text is put together first where it is not always the same.
    fn say<W: Write + Drop>(
        &mut self,
        reply: &Reply,
        out: &mut Output<W>,
    ) -> Result<(), AllocError> {
        if let Some(line) = fixed_line(reply) {
            out.put_line(line);
            return Ok(());
        }
        self.text.clear();
        push_reply(&mut self.text, reply)?;
        self.put_text(out);
        Ok(())
    }

    // Puts out the text that was put together, as a line.
    fn put_text<W: Write + Drop>(&self, out: &mut Output<W>) {
        out.put(self.text.as_slice());
        out.put(b"\n");
    }

    // Performs the command that a line was parsed as, and answers it.
    fn perform<W: Write + Drop>(
        &mut self,
        command: Command,
        line: &[u8],
        out: &mut Output<W>,
    ) -> Result<(), AllocError> {
        let done = match command {
            Command::Call(call) => self.call(call),
            Command::New => self.restart(),
            Command::Manual(signal, check) => self.report(signal, check),
            Command::Notice(place) => self.write_notice(place),
            Command::Plan(role) => self.set_plan(role, line),
            Command::AskNumbers(role) => Ok(numbers(self.plan(role))),
            Command::AskNorms(role, i) => Ok(norms(self.plan(role), i)),
            Command::Orders(points, control, rule) => self.order(points, control, rule),
            Command::Journal(length) => self.renew_journal(length),
            Command::Certificate(place) => self.certify(place),
            Command::Audit => self.audit(),
            Command::Dump => return self.dump(out),
            Command::Read(place, end) => return self.read(place, end, out),
            Command::Bytes(place) => self.put_bytes(place, line),
            Command::Write(place, kind) => self.put_record(place, kind, line),
        };
        self.say(&done.unwrap_or_else(Reply::from), out)
    }

    // A call of the verification that runs, if one does. It is kept for an audit.
    fn call(&mut self, call: Call) -> Result<Reply, Denied> {
        let Stage::Automatic(automatic) = &mut self.stage else {
            return Err(Denied::Misuse);
        };
        let done = automatic.call(call, self.journal.as_mut_slice());
        self.calls.keep(call);
        done
    }

    fn restart(&mut self) -> Result<Reply, Denied> {
        self.stage = Stage::start();
        Ok(Reply::Done)
    }

    fn report(&mut self, signal: Signal, check: Check) -> Result<Reply, Denied> {
        let Stage::Manual(manual) = &mut self.stage else {
            return Err(Denied::Misuse);
        };
        manual.report(signal, check)
    }

    fn write_notice(&mut self, place: usize) -> Result<Reply, Denied> {
        let Stage::Manual(Manual::Failed(notice)) = &self.stage else {
            return Err(Denied::Misuse);
        };
        let length = notice.write(self.journal.as_mut_slice(), place)?;
        self.stage = Stage::start();
        Ok(Reply::Length(length))
    }

    fn plan(&self, role: Role) -> ChosenPlan {
        match role {
            Role::Main => self.main,
            Role::Short => self.short,
        }
    }

    // The plan that the words behind the role name.
    fn set_plan(&mut self, role: Role, line: &[u8]) -> Result<Reply, Denied> {
        let plan = parse_plan(&mut Words::behind(line, 2))?;
        match role {
            Role::Main => self.main = plan,
            Role::Short => self.short = plan,
        }
        Ok(Reply::Done)
    }

    // Numbers as they are typed: whether a control or a rule of that number is known is a question.
    fn order(&mut self, points: i32, control: i32, rule: i32) -> Result<Reply, Denied> {
        let Stage::Manual(manual) = &mut self.stage else {
            return Err(Denied::Misuse);
        };
        let Manual::Ready(_) = manual else {
            return Err(Denied::Misuse);
        };
        let orders = Orders::new(points, control, rule)?;
        let ready = manual.spend().ok_or(Denied::Misuse)?;
        let ordered = Ordered {
            points,
            control,
            main: self.main,
            short: self.short,
        };
        self.stage = Stage::Automatic(Automatic::start(ready, orders, ordered));
        self.calls.clear();
        Ok(Reply::Done)
    }

    fn renew_journal(&mut self, length: i32) -> Result<Reply, Denied> {
        let length = usize::try_from(length)
            .ok()
            .filter(|n| *n <= JOURNAL_MAX)
            .ok_or(Denied::Misuse)?;
        self.journal = vec![in self.heap; BLANK; length]?;
        Ok(Reply::Done)
    }

    // The certificate spends the verification, and the manual stage is at its start again.
    fn certify(&mut self, place: usize) -> Result<Reply, Denied> {
        let Stage::Automatic(automatic) = &mut self.stage else {
            return Err(Denied::Misuse);
        };
        let written = automatic.certify(self.journal.as_mut_slice(), place)?;
        self.stage = Stage::start();
        Ok(Reply::Closed(written.verdict, written.length))
    }

    fn audit(&self) -> Result<Reply, Denied> {
        let Stage::Automatic(automatic) = &self.stage else {
            return Err(Denied::Misuse);
        };
        let calls = self.calls.all().ok_or(Denied::Misuse)?;
        automatic.audit(self.heap, calls, self.journal.len())
    }

    fn dump<W: Write + Drop>(&mut self, out: &mut Output<W>) -> Result<(), AllocError> {
        self.text.clear();
        push_dump(&mut self.text, self.journal.as_slice())?;
        self.put_text(out);
        Ok(())
    }

    // The records of a part of the journal, as a journal of their own.
    fn read<W: Write + Drop>(
        &mut self,
        place: usize,
        end: Option<usize>,
        out: &mut Output<W>,
    ) -> Result<(), AllocError> {
        let end = end.unwrap_or(self.journal.len());
        let Some(bytes) = self.journal.get(place..end) else {
            return self.say(&Reply::Misuse, out);
        };
        self.text.clear();
        push_reading(&mut self.text, bytes)?;
        self.put_text(out);
        Ok(())
    }

    fn put_bytes(&mut self, place: usize, line: &[u8]) -> Result<Reply, Denied> {
        let mut words = Words::behind(line, 2);
        let (Some(word), true) = (words.next(), words.is_empty()) else {
            return Err(Denied::Syntax);
        };
        overwrite(self.journal.as_mut_slice(), place, word)?;
        Ok(Reply::Done)
    }

    // The kind is a number as it is typed: one that no record has is no command.
    fn put_record(&mut self, place: usize, kind: i32, line: &[u8]) -> Result<Reply, Denied> {
        let record = parse_record(kind, &mut Words::behind(line, 3))?;
        let length = write_record(self.journal.as_mut_slice(), place, &record)?;
        Ok(Reply::Length(length))
    }
}
