//! Reads cases, one a line, and prints the name of each with its answer. A case is a name, a database
//! and an action, parted by ` | `. Lines that begin with `#` are only printed.
//!
//! The database is a YAML map, each of whose keys may be left out:
//!
//! - `extensions`: maps of `name`, `versions` (parted by spaces; one that breaks ends in `!`) and
//!   `needs`.
//! - `params`: maps of `name`, `values`, `defined` and `needs`. The values are a list, or `{low: A,
//!   high: B}`; without them true and false.
//! - `chain`: how many further Boolean parameters `P000`, `P001`, .. there are, each requiring the
//!   next one to be true where it is itself.
//! - `own`: the configuration's constraints.
//! - `asked`: the asked condition.
//!
//! Where the space isn't lawful, or a list is too long, the answer is `unlawful` or `too long`. The
//! actions:
//!
//! - `lawful`.
//! - `fits`: whether the asked condition fits, or the first name that doesn't.
//! - `find` and `answer`: a completion or a proof, with its lines or without. Then `checked` where the
//!   constraints all hold in the completion, or where the proof is right, and where the lines are
//!   read back as they are; else `wrong`.
//! - `check ; L ; ..`: whether the lines are a right proof, the place of the first wrong node, or the
//!   first line with which no proof goes on. `deep N L` checks N lines L.
//! - `full ; L ; ..`: the full configuration that the lines are, or the first line with which none
//!   goes on.
#![tactic(auto)]

mod answers;
mod database;
mod limits;
mod refuting;

use std::io;

fn main(rt: HostRuntime) -> io::Result<()> {
    for line in rt.lines(rt.alloc()) {
        let line = line?;
        let told = answers::answer(rt.alloc(), line.as_str())?;
        println!(rt; "{told}")?;
    }
    Ok(())
}
