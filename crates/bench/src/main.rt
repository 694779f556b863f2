// Drives a verification by commands from standard input, one to a line, and answers each with a line.
#![tactic(auto)]

mod automatic;
mod calls;
mod denied;
mod help;
mod hexadecimal;
mod lines;
mod output;
mod record_text;
mod record_words;
mod session;
mod stage;

use help::HELP;
use lines::converse;
use std::{env, io};

// Whether the first word behind the program's name is `help`.
fn is_help_wanted(rt: &HostRuntime) -> io::Result<bool> {
    Ok(
        env::args(rt)?
            .nth(1)
            .is_some_and(|word| word.as_str() == "help"),
    )
}

fn main(rt: HostRuntime) -> io::Result<()> {
    if is_help_wanted(&rt)? {
        return print!(rt; "{HELP}");
    }
    converse(rt.alloc(), rt.stdin(), rt.stdout())
}
