//! Reads cases, one a line, and prints each with its answer. Lines that begin with `#` are only
//! printed.
//!
//! `fault SPACE LENGTH PRESENT NAME=PLACES=PRESENT ..`: the fault of a CSR's fields, with the width of
//! the registers in the full configuration that shows it, or `none`. The space is `wide` (MXLEN is
//! 32 or 64) or `bare` (there is no MXLEN); the length is 32, 64 or MXLEN; presences are words joined
//! by `&`. Places are `HIGH-LOW` or one bit, or two of these for 32 and for 64, joined by `/`, where
//! `none` is no place.
#![tactic(auto)]

mod faults;
mod registers;

use std::alloc::Global;
use std::io;
use udb_base::NoMemory;

fn answer(alloc: Global, line: &str) -> Result<String, NoMemory> {
    match line.strip_prefix("fault ") {
        Some(rest) => faults::fault_answer(alloc, rest),
        None => "no case".to_string(alloc),
    }
}

fn main(rt: HostRuntime) -> io::Result<()> {
    for line in rt.lines(rt.alloc()) {
        let line = line?;
        println!(rt; "{line}")?;
        if !line.as_str().starts_with('#') {
            let told = answer(rt.alloc(), line.as_str())?;
            println!(rt; "  {told}")?;
        }
    }
    Ok(())
}
