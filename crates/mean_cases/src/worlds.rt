//! What stands round the bodies of cases.

use case_world::{csrs_of, functions_of, shipped_csrs};
use idl_tree::{CsrBodies, Functions, Program};
use std::alloc::Global;
use udb_base::{Many, NoMemory, both};

/// The space of most cases.
const WIDE: &str = "I@2.1.0 M@2.0.0 Sm@1.12.0 B=flag MXLEN=32|64 N=8|16 T=lo|hi Z=3|5?M";

/// A space without MXLEN, where registers have 32 bits.
const BARE: &str = "I@2.1.0 Sm@1.12.0 B=flag";

/// CSRs whose fields have bodies, a type that depends on MXLEN and a condition, and one that is read alone.
const CSRS: &str =
    "t 0x7C0 mxlen Sm: A/7-0/kRW/wsum B/15-8/kRW C/16/k@type D/23-17/r5 E/31-24/kRW/pM
v 0xC00 mxlen Sm: VALUE/31-0|63-0/kRW
";

const SOURCES: &str = "sum return csr_value.A + CSR[t].B;
type return (MXLEN == 64) ? CsrFieldType::RW : CsrFieldType::RO;
";

/// The words of a space and of a condition over it.
pub fn space_words(text: &str) -> (&'static str, &str) {
    match text.strip_prefix("bare&") {
        Some(rest) => (BARE, rest),
        None => (WIDE, text),
    }
}

fn joined(
    first: Result<CsrBodies, NoMemory>,
    more: Result<CsrBodies, NoMemory>,
) -> Result<CsrBodies, NoMemory> {
    let (mut all, more) = both(first, more)?;
    all.append(more)?;
    Ok(all)
}

fn functions_or_none(
    read: Result<Option<Functions>, NoMemory>,
    alloc: Global,
) -> Result<Functions, NoMemory> {
    match read? {
        Some(functions) => Ok(functions),
        None => Ok(Many::new(alloc)),
    }
}

/// The program of a case with the functions that a source spells, or with none where it spells none.
pub fn program_of(alloc: Global, functions: &str) -> Result<Program, NoMemory> {
    let csrs = joined(shipped_csrs(alloc), csrs_of(alloc, CSRS, SOURCES));
    let (functions, csrs) = both(
        functions_or_none(functions_of(alloc, functions), alloc),
        csrs,
    )?;
    Ok(Program { functions, csrs })
}
