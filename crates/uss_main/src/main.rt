//! The program `uss`: makes the real objects, and calls the top call with them.
#![tactic(auto)]

use std::process::ExitCode;
use std::{env, io};
use uss_app::command;
use uss_link::{ReaderSource, WriterSink};

/// What is written to standard error where the words are no command.
const USAGE: &str = "usage: uss conflict < SCRIPT
       uss discover < SCRIPT

conflict  compares two lists of volumes, and prints the first pair, one of each
          list, counted from 0, that shares a point of airspace and time, or
          `clear`
          lines: a VOLUME, b VOLUME
discover  carries out calls of a discovery service that begins empty, and
          prints the replies; C is the client's name
          lines: C query VOLUME, C get FLIGHT, C remove FLIGHT OVN,
          C put FLIGHT OVN STATE BASE TICKET key K O1 .. OK vols M VOLUMES,
          C tput TICKET BASE VOLUME, C tget TICKET, C tremove TICKET VERSION

VOLUME is rect X1 Y1 X2 Y2 LOW HIGH START END
       or poly N X1 Y1 .. XN YN LOW HIGH START END
with coordinates in 1e-7 degrees, altitudes in millimetres and instants in
nanoseconds since 1970-01-01T00:00:00Z.";

/// The words after the program's name.
fn words(rt: &HostRuntime) -> io::Result<Vec<String>> {
    let mut words = Vec::new(rt.alloc());
    for word in env::args(rt)?.skip(1) {
        words.push(word)?;
    }
    Ok(words)
}

/// Writes to standard error why there is no answer; the status says it too.
fn explain(rt: &HostRuntime, status: u8) -> io::Result<()> {
    match status {
        2 => eprintln!(rt; "{USAGE}"),
        3 => eprintln!(rt; "uss: a read or a write failed"),
        4 => eprintln!(rt; "uss: out of memory"),
        _ => Ok(()),
    }
}

fn main(rt: HostRuntime) -> ExitCode {
    let mut input = ReaderSource::new(rt.stdin());
    let mut output = WriterSink::new(rt.stdout());
    let status = match words(&rt) {
        Ok(words) => command(rt.alloc(), words.as_slice(), &mut input, &mut output),
        Err(_) => 4,
    };
    let _ = explain(&rt, status);
    ExitCode::from(status)
}
