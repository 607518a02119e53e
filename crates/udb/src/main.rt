//! The program `udb`: it hands its words and the standard streams to `run` and ends with the
//! status that `run` answers.
#![tactic(auto)]

mod adapters;
#[cfg(test)]
mod tests;

use adapters::{ReaderSource, Stream, StreamSink};
use std::process::ExitCode;
use std::{env, io};
use udb_top::run;

fn words_of(rt: &HostRuntime) -> io::Result<Vec<String>> {
    let mut words = Vec::new(rt.alloc());
    for word in env::args(rt)?.skip(1) {
        words.push(word)?;
    }
    Ok(words)
}

// A word that isn't UTF-8 is no command.
fn words_refused(rt: &HostRuntime, fault: &io::Error) -> ExitCode {
    if fault.kind() == io::ErrorKind::OutOfMemory {
        let _ = eprintln!(rt; "out of memory");
        return ExitCode::from(7);
    }
    let _ = eprintln!(rt; "not a command");
    ExitCode::from(2)
}

fn main(rt: HostRuntime) -> ExitCode {
    let words = match words_of(&rt) {
        Ok(words) => words,
        Err(fault) => return words_refused(&rt, &fault),
    };
    let mut input = ReaderSource {
        reader: rt.stdin(),
        faults: 0,
    };
    let mut out = StreamSink {
        stream: Stream::Results(rt.stdout()),
        faults: 0,
    };
    let mut err = StreamSink {
        stream: Stream::Errors(rt.stderr()),
        faults: 0,
    };
    ExitCode::from(run(rt.alloc(), words.as_slice(), &mut input, &mut out, &mut err))
}
