//! What is read of an entry, part by part, with the first rule that is broken.

ghost use Rattle.udb_entry.specs.Parts.{Examines, IsBroken, ReadsBoth, ReadsEither, IsEarlier};

use crate::answers::EntryFault;
use udb_base::{Lines, NoMemory};

/// A rule that is kept, or that a part breaks with these lines.
pub fn examined(rule: u8, shows: Result<Option<Lines>, NoMemory>) -> Result<(), EntryFault>
    ensures { Examines rule shows result }
{
    match shows {
        Ok(Some(shows)) => Err(EntryFault::Broken { rule, shows }),
        Ok(None) => Ok(()),
        Err(_) => Err(EntryFault::Memory),
    }
}

/// The breach of a rule that a part breaks with these lines.
pub fn breach_of(rule: u8, shows: Result<Lines, NoMemory>) -> EntryFault
    ensures { IsBroken rule shows result }
{
    match shows {
        Ok(shows) => EntryFault::Broken { rule, shows },
        Err(_) => EntryFault::Memory,
    }
}

/// Two parts, the rules of the first before those of the second.
pub fn both_read<A: Drop, B: Drop>(
    first: Result<A, EntryFault>,
    second: Result<B, EntryFault>,
) -> Result<(A, B), EntryFault>
    ensures { ReadsBoth first second result }
{
    match first {
        Ok(first) => match second {
            Ok(second) => Ok((first, second)),
            Err(fault) => Err(fault),
        },
        Err(fault) => Err(fault),
    }
}

fn earlier_fault(first: EntryFault, second: EntryFault) -> EntryFault
    ensures { IsEarlier first second result }
{
    match first {
        EntryFault::Memory => EntryFault::Memory,
        EntryFault::Broken { rule, shows } => match second {
            EntryFault::Memory => EntryFault::Memory,
            EntryFault::Broken {
                rule: other,
                shows: others,
            } => {
                if other < rule {
                    EntryFault::Broken {
                        rule: other,
                        shows: others,
                    }
                } else {
                    EntryFault::Broken { rule, shows }
                }
            }
        },
    }
}

/// Two parts, of whose breaches the one of the lesser rule counts, and of two of one rule the first.
pub fn either_read<A: Drop, B: Drop>(
    first: Result<A, EntryFault>,
    second: Result<B, EntryFault>,
) -> Result<(A, B), EntryFault>
    ensures { ReadsEither first second result }
{
    match first {
        Ok(first) => match second {
            Ok(second) => Ok((first, second)),
            Err(fault) => Err(fault),
        },
        Err(fault) => match second {
            Ok(_) => Err(fault),
            Err(other) => Err(earlier_fault(fault, other)),
        },
    }
}
