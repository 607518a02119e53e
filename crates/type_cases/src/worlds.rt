//! What stands round the bodies of cases.

use case_world::{csrs_of, functions_of, shipped_csrs, space_of};
use idl_tree::{CsrBodies, Functions, Program};
use std::alloc::Global;
use udb_base::{Many, NoMemory, Space, both};

/// The texts of a space and of the CSRs that lines add to it.
#[derive(Drop)]
pub struct World {
    space: String,
    ships: bool,
    csrs: String,
    sources: String,
}

fn push_line(to: &mut String, line: &str) -> Result<(), NoMemory> {
    to.push_str(line)?;
    to.push_str("\n")
}

fn joined(
    first: Result<CsrBodies, NoMemory>,
    more: Result<CsrBodies, NoMemory>,
) -> Result<CsrBodies, NoMemory> {
    let (mut all, more) = both(first, more)?;
    all.append(more)?;
    Ok(all)
}

fn program_with(
    functions: Result<Option<Functions>, NoMemory>,
    csrs: Result<CsrBodies, NoMemory>,
) -> Result<Option<Program>, NoMemory> {
    let (functions, csrs) = both(functions, csrs)?;
    match functions {
        Some(functions) => Ok(Some(Program { functions, csrs })),
        None => Ok(None),
    }
}

impl World {
    /// A world whose space has nothing.
    pub fn new(alloc: Global) -> World {
        World {
            space: String::new(alloc),
            ships: false,
            csrs: String::new(alloc),
            sources: String::new(alloc),
        }
    }

    fn begin(&mut self, space: &str) -> Result<(), NoMemory> {
        self.ships = false;
        self.csrs.clear();
        self.sources.clear();
        self.space.clear();
        self.space.push_str(space)
    }

    /// Whether an action gives a part of the world, which is then taken.
    pub fn take(&mut self, action: &str, rest: &str) -> Result<bool, NoMemory> {
        match action {
            "space" => self.begin(rest)?,
            "shipped" => self.ships = true,
            "csr" => push_line(&mut self.csrs, rest)?,
            "source" => push_line(&mut self.sources, rest)?,
            _ => return Ok(false),
        }
        Ok(true)
    }

    /// The space.
    pub fn space(&self, alloc: Global) -> Result<Space, NoMemory> {
        space_of(alloc, self.space.as_str())
    }

    fn first_csrs(&self, alloc: Global) -> Result<CsrBodies, NoMemory> {
        if self.ships {
            return shipped_csrs(alloc);
        }
        Ok(Many::new(alloc))
    }

    fn more_csrs(&self, alloc: Global) -> Result<CsrBodies, NoMemory> {
        csrs_of(alloc, self.csrs.as_str(), self.sources.as_str())
    }

    /// The program of the CSRs and of the functions that a source spells, where it spells some.
    pub fn program(&self, alloc: Global, functions: &str) -> Result<Option<Program>, NoMemory> {
        let csrs = joined(self.first_csrs(alloc), self.more_csrs(alloc));
        program_with(functions_of(alloc, functions), csrs)
    }
}
