//! Reads cases of what bodies do, one a line, and prints each with its answer. Lines that begin with `#`
//! are only printed.
//!
//! - `run WORDS :: BODY` and `run WORDS :: FUNCTIONS :: BODY`: how the body ends as an operation and what it
//!   changes in the state. The first of the words says what the full configuration has, as `64&M&N=8`; the others
//!   give the state, `x1=0xFF pc=16 mstatus.MIE=1 ram=00ff`, and the variables of the encoding,
//!   `$imm=31-20`. The CSRs are those that ship with the database, and two for cases. Behind `bare` stands a
//!   configuration of a space without MXLEN.
//! - `reset COND`: the CSRs as software reads them at reset.
#![tactic(auto)]

mod answers;
mod registers;
mod told;
mod worlds;

use std::alloc::Global;
use std::io;
use udb_base::NoMemory;

fn answer(alloc: Global, line: &str) -> Result<String, NoMemory> {
    let (action, rest) = line.split_once(' ').unwrap_or((line, ""));
    match action {
        "run" => answers::run_answer(alloc, rest),
        "reset" => registers::reset_answer(alloc, rest),
        _ => "no case".to_string(alloc),
    }
}

fn main(rt: HostRuntime) -> io::Result<()> {
    for line in rt.lines(rt.alloc()) {
        let line = line?;
        println!(rt; "{line}")?;
        if !line.as_str().starts_with('#') {
            let told = answer(rt.alloc(), line.as_str())?;
            println!(rt; "  {told}")?;
        }
    }
    Ok(())
}
