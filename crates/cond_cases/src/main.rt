//! Reads cases, one a line, and prints each with its answer. A case is a word and what is asked:
//!
//! - `version T`, `requirement T`: what the text spells.
//! - `meets L ; R ; V`: whether the version V of the list L meets the requirement R; a listed
//!   version that breaks ends in `!`.
//! - `cond Y`, `members Y`, `implemented Y`: what the YAML value spells.
//! - `holds F ; Y`: whether the condition holds in the full configuration F of the sample space.
//! - `known P ; Y`: what is known of the condition within the path P, whose oldest step stands first.
//! - `constraints F ; Y`: how the numbered constraints from 0 to 6 stand in F, where the condition
//!   is asked.
//! - `value F ; N`, `place N`: the value of a parameter in F, and the places of a name.
//!
//! A full configuration is the version of E, or `absent`, and the value of N.
#![tactic(auto)]

mod answers;
mod sample;
mod values;

use std::io;

fn main(rt: HostRuntime) -> io::Result<()> {
    for line in rt.lines(rt.alloc()) {
        let line = line?;
        let told = answers::answer(rt.alloc(), line.as_str())?;
        println!(rt; "{line}\n    {told}")?;
    }
    Ok(())
}
