// The lines of the input, each answered where it lies in the reader's buffer.
ghost use Rattle.std.specs.Prelude.{◌≤◌, length, IfOk};

use crate::output::Output;
use crate::session::Session;
use memchr::memchr;
use std::alloc::{AllocError, Global};
use std::io;
use std::io::{BufRead, BufReader, Write};

// Answers a line. Want of memory for the answer is kept as a fault.
fn answer<W: Write + Drop>(session: &mut Session, line: &[u8], out: &mut Output<W>) {
    if let Err(fault) = session.answer(line, out) {
        out.fail(fault.into());
    }
}

// Answers the lines of a buffer, and says how many of its bytes they took. One that does not end in it is put together in `begun`.
// Behind a fault the lines are answered all the same, but for those behind a line that was put together.
fn answer_lines<W: Write + Drop>(
    session: &mut Session,
    begun: &mut Vec<u8>,
    held: &[u8],
    out: &mut Output<W>,
) -> Result<usize, AllocError>
    ensures { IfOk result (λ taken. taken ≤ length held.now) }
{
    let mut rest = held;
    while let Some(end) = memchr(b'\n', rest) {
        let (line, behind) = rest.split_at(end);
        rest = &behind[1..];
        if begun.is_empty() {
            answer(session, line, out);
        } else {
            begun.extend_from_slice(line)?;
            answer(session, begun.as_slice(), out);
            begun.clear();
            if out.has_failed() {
                break;
            }
        }
    }
    if out.has_failed() {
        return Ok(held.len() - rest.len());
    }
    begun.extend_from_slice(rest)?;
    Ok(held.len())
}

// Answers lines until the input ends, the last one also without a newline. Whoever waits for an answer has it before
// more input is waited for. A fault ends the conversation behind the lines that were read with it, and want of memory for a line
// itself ends it at once.
pub fn converse(
    heap: Global,
    input: impl io::Read + Drop,
    output: impl Write + Drop,
) -> io::Result<()> {
    let mut input = BufReader::new(heap, input)?;
    let mut out = Output::new(output);
    let mut session = Session::new(heap);
    let mut begun = Vec::new(heap);
    // the toolchain's form of a loop that ends with its input
    for _ in 0..u64::MAX {
        let held = input.fill_buf()?;
        if held.is_empty() || out.has_failed() {
            break;
        }
        let taken = answer_lines(&mut session, &mut begun, held, &mut out)?;
        out.flush();
        input.consume(taken);
    }
    answer(&mut session, begun.as_slice(), &mut out);
    out.finish()
}
