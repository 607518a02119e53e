//! Reads cases, one a line, and prints each with its answer. Lines that begin with `#` are only
//! printed. A match is 32 of `0`, `1` and `-`, bit 31 first; words are hexadecimal.
//!
//! - `matches M WORD`: whether the word has the match's pattern; `bits MASK BITS WORD` the same of
//!   a pattern given by its numbers.
//! - `overlap M N`: the least word that has both, or `none`.
//! - `decode SPACE PART WORD NAME=M=PRESENT ..`: the picks of the word in a configuration. The
//!   space is `wide` or `bare`; the configuration and the presences are words joined by `&`.
#![tactic(auto)]

mod decoding;
mod matches;

use std::alloc::Global;
use std::io;
use udb_base::NoMemory;

fn answer(alloc: Global, line: &str) -> Result<String, NoMemory> {
    let (action, rest) = line.split_once(' ').unwrap_or((line, ""));
    match action {
        "matches" => matches::matches_answer(alloc, rest),
        "bits" => matches::bits_answer(alloc, rest),
        "overlap" => matches::overlap_answer(alloc, rest),
        "decode" => decoding::decode_answer(alloc, rest),
        _ => "no case".to_string(alloc),
    }
}

fn main(rt: HostRuntime) -> io::Result<()> {
    for line in rt.lines(rt.alloc()) {
        let line = line?;
        println!(rt; "{line}")?;
        if !line.as_str().starts_with('#') {
            let told = answer(rt.alloc(), line.as_str())?;
            println!(rt; "  {told}")?;
        }
    }
    Ok(())
}
