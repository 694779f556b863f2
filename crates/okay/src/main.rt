// Answers every line with ok: what the speed of the bench is measured against.
#![tactic(auto)]

use std::io;
use std::io::{BufRead, BufReader, BufWriter, Write};

fn main(rt: HostRuntime) -> io::Result<()> {
    let mut out = BufWriter::new(rt.alloc(), rt.stdout())?;
    for line in BufReader::new(rt.alloc(), rt.stdin())?.lines(rt.alloc()) {
        let _ = line?;
        writeln!(out, "ok")?;
    }
    out.flush()
}
