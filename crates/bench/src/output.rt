// The answers on their way out, gathered before they are handed on.
ghost use Rattle.std.specs.Prelude.{◌≡◌, ◌≤◌, [], length};

use arrayvec::ArrayVec;
use std::io;
use std::io::Write;

// How many bytes of answers wait at most.
const ROOM: usize = 8192;

// The room that is asked for a line which is always the same.
const FIXED_LINE: usize = 16;

// A fault is kept, the latest one. What was to be handed on then is lost, and what is put behind it is handed on all the same.
#[derive(Drop)]
pub struct Output<W: Write + Drop> {
    inner: W,
    waiting: ArrayVec<u8, ROOM>,
    kept: io::Result<()>,
}

impl<W: Write + Drop> Output<W> {
    pub fn new(inner: W) -> Output<W> {
        Output {
            inner,
            waiting: ArrayVec::new(),
            kept: Ok(()),
        }
    }

    // Hands on what waits, and leaves nothing waiting.
    pub fn flush(&mut self)
        ensures { self.new.waiting.items ≡ [] }
    {
        if let Err(fault) = self.inner.write_all(self.waiting.as_slice()) {
            self.fail(fault);
        }
        self.waiting.clear();
    }

    // Keeps a fault, which ends the conversation.
    pub fn fail(&mut self, fault: io::Error)
        ensures { self.new.waiting.items ≡ self.old.waiting.items }
    {
        self.kept = Err(fault);
    }

    pub fn has_failed(&self) -> bool {
        self.kept.is_err()
    }

    // A line that is always the same.
    pub fn put_line(&mut self, line: &[u8])
        requires { length line.now ≤ 16 }
    {
        if self.waiting.remaining_capacity() < FIXED_LINE {
            self.flush();
        }
        self.waiting.try_extend_from_slice(line).unwrap();
    }

    // A text of any length: one for which there is never room is handed on at once.
    pub fn put(&mut self, text: &[u8]) {
        if self.waiting.remaining_capacity() < text.len() {
            self.flush();
        }
        if ROOM < text.len() {
            if let Err(fault) = self.inner.write_all(text) {
                self.fail(fault);
            }
            return;
        }
        self.waiting.try_extend_from_slice(text).unwrap();
    }

    // Hands on the rest, and says whether all was.
    pub fn finish(mut self) -> io::Result<()> {
        self.flush();
        self.kept
    }
}
