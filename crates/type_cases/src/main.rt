//! Reads cases of what typing says of bodies, one a line, and prints each with its answer. Lines that begin
//! with `#` and those that give the world of the following cases are only printed.
//!
//! - `space WORDS` begins a world of that space, without CSRs; `shipped` adds the CSRs that ship with the
//!   database, `csr LINE` one more, and `source NAME BODY` a body that it names.
//! - `op PRESENCE VARIABLES :: BODY` and `op PRESENCE VARIABLES :: FUNCTIONS :: BODY`: a body as an operation that is
//!   present where a condition as `I&64` holds, with variables of its encoding, `$imm=31-20`.
//! - `type PRESENCE CSR.FIELD :: BODY`, also with functions: a body as the type of a field; `reset` and
//!   `write` as its value at reset and as what writes it.
//! - `function NAME :: FUNCTIONS`: the body of one of some functions.
//!
//! The answer is `ok`, or the sort of the first fault, its node, and the name or the full configuration that
//! shows it.
#![tactic(auto)]

mod answers;
mod scopes;
mod told;
mod worlds;

use crate::worlds::World;
use std::alloc::Global;
use std::io;
use udb_base::NoMemory;

// The answer to a case; none to a line that gives a part of the world.
fn answer(alloc: Global, world: &mut World, line: &str) -> Result<Option<String>, NoMemory> {
    let (action, rest) = line.split_once(' ').unwrap_or((line, ""));
    if world.take(action, rest)? {
        return Ok(None);
    }
    Ok(Some(answers::case_answer(alloc, world, action, rest)?))
}

fn main(rt: HostRuntime) -> io::Result<()> {
    let mut world = World::new(rt.alloc());
    for line in rt.lines(rt.alloc()) {
        let line = line?;
        println!(rt; "{line}")?;
        if !line.as_str().starts_with('#') {
            if let Some(told) = answer(rt.alloc(), &mut world, line.as_str())? {
                println!(rt; "  {told}")?;
            }
        }
    }
    Ok(())
}
