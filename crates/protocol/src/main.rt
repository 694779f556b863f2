// Prints the protocol of a journal: a file of bytes, or hexadecimal from standard input.
#![tactic(auto)]

mod point_text;
mod result_text;

use journal::{Place, Reader, Record};
use point_text::{print_sequence, print_three_step};
use report::{Outcome, bytes_of_hex, outcome_after};
use result_text::{print_certificate, print_fault, print_lack, print_notice, print_result};
use std::io::{BufWriter, Read, Write};
use std::{env, fs, io};

fn print_record(out: &mut impl Write, record: &Record) -> io::Result<()> {
    match record {
        Record::Sequence(fields) => print_sequence(out, fields),
        Record::ThreeStep(fields) => print_three_step(out, fields),
        Record::Certificate(fields) => print_certificate(out, fields),
        Record::Notice(fields) => print_notice(out, fields),
    }
}

// Records are parted by a blank line.
fn print_parting(out: &mut impl Write, place: Place) -> io::Result<()> {
    if place.ordinal > 1 {
        writeln!(out, "")?;
    }
    Ok(())
}

// The records in order, each certificate and notice with its result, up to the end or the first fault.
fn print_protocol(out: &mut impl Write, journal: &[u8]) -> io::Result<()> {
    let mut reader = Reader::new(journal);
    let mut outcome = Outcome::NoCertificate(0);
    loop {
        match reader.next() {
            Ok(Some(placed)) => {
                print_parting(out, placed.place)?;
                print_record(out, &placed.record)?;
                outcome = outcome_after(outcome, &placed.record);
                print_result(out, outcome)?;
            }
            Ok(None) => break,
            Err(fault) => {
                print_parting(out, fault.place)?;
                print_fault(out, fault)?;
                break;
            }
        }
    }
    print_lack(out, outcome)
}

fn print_input(rt: &HostRuntime, out: &mut impl Write) -> io::Result<()> {
    let mut text = Vec::new(rt.alloc());
    rt.stdin().read_to_end(&mut text)?;
    match bytes_of_hex(rt.alloc(), text.as_slice()) {
        Ok(journal) => print_protocol(out, journal.as_slice()),
        Err(error) => writeln!(out, "{error}"),
    }
}

fn print_file(rt: &HostRuntime, out: &mut impl Write, path: &str) -> io::Result<()> {
    match fs::read(rt, path) {
        Ok(journal) => print_protocol(out, journal.as_slice()),
        Err(error) => {
            writeln!(out, "The file {path} cannot be read.")?;
            Err(error)
        }
    }
}

fn print_usage(out: &mut impl Write) -> io::Result<()> {
    writeln!(out, "usage: protocol [JOURNAL]")
}

// An argument that is no UTF-8 names no file here.
fn print_asked(rt: &HostRuntime, out: &mut impl Write) -> io::Result<()> {
    let Ok(mut args) = env::args(rt) else {
        return print_usage(out);
    };
    let _program = args.next();
    match (args.next(), args.next()) {
        (None, _) => print_input(rt, out),
        (Some(path), None) => print_file(rt, out, path.as_str()),
        _ => print_usage(out),
    }
}

// What was printed is flushed before an error ends the program.
fn main(rt: HostRuntime) -> io::Result<()> {
    let mut out = BufWriter::new(rt.alloc(), rt.stdout())?;
    let asked = print_asked(&rt, &mut out);
    out.flush()?;
    asked
}
