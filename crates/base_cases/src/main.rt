//! Reads cases, one a line, and prints each with its answer.
//!
//! - `name WORD`: whether the word is a name.
//! - `text BYTES` and `letters N`: whether the bytes, in two hexadecimal digits each, or N letters
//!   are the text of an entry.
//! - `source BYTES FAIL SIZE ..`: what the reads of buffers of these sizes take of a source that
//!   fails at one call.
//! - `sink ROOM FAIL PIECE ..`: what the writes of these pieces answer at a sink that fails at one
//!   call, and what it received.
//! - `keeper FAIL CALL ..`: what a keeper that fails at one call answers; calls are `rows`,
//!   `row:KIND:NAME`, `put:KIND:NAME:TEXT` and `remove:KIND:NAME`.
//! - `link CUT ROOM FAIL SESSIONS CALL ..`: what a link over sessions, joined by `/`, answers that
//!   fails at one call, and what it sent; calls are `next`, `read:SIZE`, `write:PIECE` and `close`.
#![tactic(auto)]

ghost use Rattle.udb_base.specs.Names.{IsName};

use std::alloc::{AllocError, Global};
use std::io;
use udb_base::{
    Failed, KeepFault, Keeper, Kind, Link, MemoryKeeper, MemoryLink, MemorySink, MemorySource,
    Name, NameFault, Row, Sink, Source, TextFault, kind_word, name, text,
};

/// No buffer is larger.
const LARGEST: usize = 16;

fn name_answer(alloc: Global, word: &str) -> &'static str {
    match name(alloc, word) {
        Ok(_) => "ok",
        Err(NameFault::BadName) => "no name",
        Err(NameFault::Memory) => "out of memory",
    }
}

fn text_answer(alloc: Global, bytes: &[u8]) -> Result<String, AllocError> {
    match text(alloc, bytes) {
        Ok(text) => format!(in alloc; "ok {}", text.as_str().len()),
        Err(TextFault::TooLong) => "too long".to_string(alloc),
        Err(TextFault::NotUtf8 { line }) => format!(in alloc; "no text at line {line}"),
        Err(TextFault::Memory) => "out of memory".to_string(alloc),
    }
}

fn bytes_of(alloc: Global, digits: &str) -> Result<Vec<u8>, AllocError> {
    let mut bytes = Vec::new(alloc);
    let mut high = None;
    for digit in digits.chars() {
        let value = digit.to_digit(16).unwrap_or(0) as u8;
        high = match high {
            None => Some(value),
            Some(high) => {
                bytes.push(value.wrapping_add(16u8.wrapping_mul(high)))?;
                None
            }
        };
    }
    Ok(bytes)
}

fn number(word: Option<&str>) -> u64 {
    match word {
        Some(word) => word.parse::<u64>().unwrap_or(0),
        None => 0,
    }
}

fn read_answer(source: &mut MemorySource, size: u64) -> Result<usize, Failed> {
    let mut buffer = [0u8; LARGEST];
    let size = LARGEST.min(usize::try_from(size).unwrap_or(LARGEST));
    source.read(&mut buffer[..size])
}

fn source_answer(alloc: Global, line: &str) -> Result<String, AllocError> {
    let mut words = line.split(' ');
    let bytes = words.next().unwrap_or("");
    let fails = [number(words.next())];
    let mut source = MemorySource::new(alloc, bytes.as_bytes(), &fails)?;
    let mut told = String::new(alloc);
    for word in words {
        match read_answer(&mut source, number(Some(word))) {
            Ok(count) => told.push_str(format!(in alloc; "{count} ")?.as_str())?,
            Err(_) => told.push_str("failed ")?,
        }
    }
    told.push_str(format!(in alloc; "faults {}", source.faults())?.as_str())?;
    Ok(told)
}

fn sink_answer(alloc: Global, line: &str) -> Result<String, AllocError> {
    let mut words = line.split(' ');
    let room = LARGEST.min(usize::try_from(number(words.next())).unwrap_or(LARGEST));
    let fails = [number(words.next())];
    let mut sink = MemorySink::new(alloc, room, &fails)?;
    let mut told = String::new(alloc);
    for word in words {
        match sink.write(word.as_bytes()) {
            Ok(()) => told.push_str("ok ")?,
            Err(_) => told.push_str("failed ")?,
        }
    }
    let received = String::from_utf8_lossy(alloc, sink.written())?;
    told.push_str(format!(in alloc; "faults {} received {received}", sink.faults())?.as_str())?;
    Ok(told)
}

fn kind_of(word: &str) -> Kind {
    for kind in [
        Kind::Extension,
        Kind::Parameter,
        Kind::Instruction,
        Kind::Csr,
        Kind::Functions,
    ] {
        if kind_word(kind) == word {
            return kind;
        }
    }
    Kind::Config
}

fn edit_text(edit: Result<(), KeepFault>) -> &'static str {
    match edit {
        Ok(()) => "ok",
        Err(KeepFault::Failed) => "failed",
        Err(KeepFault::Memory) => "out of memory",
    }
}

fn put(
    alloc: Global,
    keeper: &mut MemoryKeeper,
    kind: Kind,
    name: Name,
    letters: &str,
) -> &'static str
    requires { IsName name }
{
    match text(alloc, letters.as_bytes()) {
        Ok(text) => edit_text(keeper.put(alloc, Row { kind, name, text })),
        Err(_) => "no text",
    }
}

fn row(
    alloc: Global,
    keeper: &mut MemoryKeeper,
    kind: Kind,
    name: &Name,
) -> Result<String, AllocError> {
    match keeper.row(alloc, kind, name) {
        Ok(Some(text)) => text.as_str().to_string(alloc),
        Ok(None) => "none".to_string(alloc),
        Err(fault) => edit_text(Err(fault)).to_string(alloc),
    }
}

fn keys(alloc: Global, keeper: &mut MemoryKeeper) -> Result<String, AllocError> {
    let mut told = String::new(alloc);
    match keeper.rows(alloc) {
        Ok(keys) => {
            for key in keys.as_slice() {
                told.push_str(kind_word(key.kind))?;
                told.push_str(":")?;
                told.push_str(key.name.as_str())?;
                told.push_str(",")?;
            }
        }
        Err(fault) => told.push_str(edit_text(Err(fault)))?,
    }
    Ok(told)
}

fn keeper_call(alloc: Global, keeper: &mut MemoryKeeper, call: &str) -> Result<String, AllocError> {
    let mut words = call.split(':');
    let asked = words.next().unwrap_or("");
    let kind = kind_of(words.next().unwrap_or(""));
    let Ok(name) = name(alloc, words.next().unwrap_or("-")) else {
        return "no name".to_string(alloc);
    };
    match asked {
        "rows" => keys(alloc, keeper),
        "row" => row(alloc, keeper, kind, &name),
        "put" => put(alloc, keeper, kind, name, words.next().unwrap_or("")).to_string(alloc),
        _ => edit_text(keeper.remove(alloc, kind, &name)).to_string(alloc),
    }
}

fn keeper_answer(alloc: Global, line: &str) -> Result<String, AllocError> {
    let mut words = line.split(' ');
    let fails = [number(words.next())];
    let mut keeper = MemoryKeeper::new(alloc, &fails)?;
    let mut told = String::new(alloc);
    for word in words {
        told.push_str(keeper_call(alloc, &mut keeper, word)?.as_str())?;
        told.push_str(" ")?;
    }
    told.push_str(format!(in alloc; "faults {}", keeper.faults())?.as_str())?;
    Ok(told)
}

fn call_text(call: Result<(), Failed>) -> &'static str {
    match call {
        Ok(()) => "ok",
        Err(_) => "failed",
    }
}

fn link_call(alloc: Global, link: &mut MemoryLink, call: &str) -> Result<String, AllocError> {
    let (asked, rest) = call.split_once(':').unwrap_or((call, ""));
    match asked {
        "next" => match link.next() {
            Ok(taken) => format!(in alloc; "{taken}"),
            Err(_) => "failed".to_string(alloc),
        },
        "read" => {
            let mut buffer = [0u8; LARGEST];
            let size = LARGEST.min(usize::try_from(number(Some(rest))).unwrap_or(LARGEST));
            match link.read(&mut buffer[..size]) {
                Ok(count) => format!(in alloc; "{count}"),
                Err(_) => "failed".to_string(alloc),
            }
        }
        "write" => call_text(link.write(rest.as_bytes())).to_string(alloc),
        _ => call_text(link.close()).to_string(alloc),
    }
}

fn link_answer(alloc: Global, line: &str) -> Result<String, AllocError> {
    let mut words = line.split(' ');
    let cut = LARGEST.min(usize::try_from(number(words.next())).unwrap_or(LARGEST));
    let room = LARGEST.min(usize::try_from(number(words.next())).unwrap_or(LARGEST));
    let fails = [number(words.next())];
    let mut sessions = Vec::new(alloc);
    for session in words.next().unwrap_or("").split('/') {
        sessions.push(session.as_bytes())?;
    }
    let mut link = MemoryLink::new(alloc, sessions.as_slice(), cut.max(1), room, &fails)?;
    let mut told = String::new(alloc);
    for word in words {
        told.push_str(link_call(alloc, &mut link, word)?.as_str())?;
        told.push_str(" ")?;
    }
    let received = String::from_utf8_lossy(alloc, link.sent())?;
    let (faults, of_next) = (link.faults(), link.next_faults());
    told.push_str(format!(in alloc; "faults {faults} {of_next} sent {received}")?.as_str())?;
    Ok(told)
}

fn answer(alloc: Global, line: &str) -> Result<String, AllocError> {
    match line.split_once(' ') {
        Some(("name", word)) => name_answer(alloc, word).to_string(alloc),
        Some(("text", digits)) => text_answer(alloc, bytes_of(alloc, digits)?.as_slice()),
        Some(("letters", count)) => {
            let count = usize::try_from(number(Some(count)))
                .unwrap_or(0)
                .min(70_000);
            text_answer(alloc, "a".repeat(alloc, count)?.as_bytes())
        }
        Some(("source", rest)) => source_answer(alloc, rest),
        Some(("sink", rest)) => sink_answer(alloc, rest),
        Some(("keeper", rest)) => keeper_answer(alloc, rest),
        Some(("link", rest)) => link_answer(alloc, rest),
        _ => "no case".to_string(alloc),
    }
}

fn main(rt: HostRuntime) -> io::Result<()> {
    for line in rt.lines(rt.alloc()) {
        let line = line?;
        let told = answer(rt.alloc(), line.as_str())?;
        println!(rt; "{line}\n    {told}")?;
    }
    Ok(())
}
