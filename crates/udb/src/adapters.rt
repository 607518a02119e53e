//! The trusted edge: the standard streams as sources and sinks. They count their failed calls and
//! tell nothing of what they hold.

ghost use Rattle.std.specs.Prelude.{◌≤◌, None, length, IfSome};

use std::io::{ErrorKind, Read, Write};
use udb_base::{Failed, Sink, Source};

// One read, past interruptions.
fn read_once<R: Read>(reader: &mut R, into: &mut [u8]) -> Option<usize>
    ensures { IfSome result (λ n. n ≤ length into.new) }
{
    for _turn in 0..u64::MAX {
        match reader.read(into) {
            Ok(count) => return Some(count),
            Err(fault) => {
                if fault.kind() != ErrorKind::Interrupted {
                    return None;
                }
            }
        }
    }
    None
}

/// A reader as a source.
#[derive(Drop)]
pub struct ReaderSource<R: Read + Drop> {
    pub reader: R,
    pub faults: u64,
}

impl<R: Read + Drop> Source for ReaderSource<R> {
    ghost faults = { λ s. s.faults };

    ghost left = { λ _. None };

    fn read(&mut self, into: &mut [u8]) -> Result<usize, Failed> {
        match read_once(&mut self.reader, into) {
            Some(count) => Ok(count),
            None => {
                self.faults = self.faults.saturating_add(1);
                Err(Failed)
            }
        }
    }
}

/// The stream for results, or the one for errors: one type, since a program writes to both.
#[derive(Drop)]
pub enum Stream<O: Write + Drop, E: Write + Drop> {
    Results(O),
    Errors(E),
}

/// A stream as a sink.
#[derive(Drop)]
pub struct StreamSink<O: Write + Drop, E: Write + Drop> {
    pub stream: Stream<O, E>,
    pub faults: u64,
}

fn written<W: Write>(writer: &mut W, piece: &[u8]) -> bool {
    writer.write_all(piece).is_ok() && writer.flush().is_ok()
}

impl<O: Write + Drop, E: Write + Drop> Sink for StreamSink<O, E> {
    ghost faults = { λ s. s.faults };

    ghost written = { λ _. None };

    fn write(&mut self, piece: &[u8]) -> Result<(), Failed> {
        let done = match &mut self.stream {
            Stream::Results(writer) => written(writer, piece),
            Stream::Errors(writer) => written(writer, piece),
        };
        if done {
            return Ok(());
        }
        self.faults = self.faults.saturating_add(1);
        Err(Failed)
    }
}
