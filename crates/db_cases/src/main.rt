//! Reads bundles, one a line, and prints each with what `accept` answers of its rows. In a bundle
//! `\n` is a line feed. A line that begins with `#` says what the next one shows.
#![tactic(auto)]

ghost use Rattle.std.specs.Prelude.{◌≡◌, IsTrue};
ghost use Rattle.db_spec.specs.Kinds.{is_read_kind};
ghost use Rattle.db_spec.specs.First.{HasReadKinds};
ghost use Rattle.udb_bundle.specs.Bundles as bundle;

use case_text::text_of;
use std::alloc::Global;
use std::io;
use udb_base::{Kind, NoMemory, Row};
use udb_bundle::{BundleFault, read_bundle};
use udb_db::{AcceptFault, Broken, Tables, accept};

fn kind_text(kind: Option<Kind>) -> &'static str {
    match kind {
        Some(Kind::Extension) => "extension ",
        Some(Kind::Parameter) => "parameter ",
        Some(Kind::Instruction) => "instruction ",
        Some(Kind::Csr) => "csr ",
        Some(Kind::Functions) => "functions ",
        Some(Kind::Config) => "config ",
        None => "database",
    }
}

fn broken_text(alloc: Global, broken: &Broken) -> Result<String, NoMemory> {
    let mut told = "refused ".to_string(alloc)?;
    told.push_str(kind_text(broken.kind))?;
    if let Some(name) = &broken.name {
        told.push_str(name.as_str())?;
    }
    let rule = broken.rule;
    told.push_str(format!(in alloc; " rule {rule}")?.as_str())?;
    for line in broken.shows.as_slice() {
        told.push_str("\n  ")?;
        told.push_str(line.as_str())?;
    }
    Ok(told)
}

fn is_read(row: &Row) -> bool
    ensures { result ≡ is_read_kind row.now.kind }
{
    match row.kind {
        Kind::Extension => true,
        Kind::Parameter => true,
        Kind::Config => true,
        Kind::Instruction | Kind::Csr | Kind::Functions => false,
    }
}

fn are_read(rows: &[Row]) -> bool
    ensures { IsTrue result → HasReadKinds rows.now }
{
    for row in rows {
        if !is_read(row) {
            return false;
        }
    }
    true
}

fn rows_answer(alloc: Global, rows: &[Row]) -> Result<String, NoMemory>
    requires { bundle.HasDistinctKeys rows.now }
{
    let tables = Tables::new(alloc, rows)?;
    if !are_read(tables.rows()) {
        return "not built".to_string(alloc);
    }
    match accept(alloc, tables) {
        Ok(database) => {
            let count = database.tables().rows().len();
            format!(in alloc; "accepted {count} entries")
        }
        Err(AcceptFault::Memory { tables: _ }) => "out of memory".to_string(alloc),
        Err(AcceptFault::Broken { first, tables: _ }) => broken_text(alloc, &first),
    }
}

fn answer(alloc: Global, line: &str) -> Result<String, NoMemory> {
    let text = text_of(alloc, line)?;
    match read_bundle(alloc, text.as_bytes()) {
        Ok(bundle) => rows_answer(alloc, bundle.rows.as_slice()),
        Err(BundleFault::Memory) => "out of memory".to_string(alloc),
        Err(BundleFault::Line { number }) => format!(in alloc; "no bundle at line {number}"),
    }
}

fn main(rt: HostRuntime) -> io::Result<()> {
    for line in rt.lines(rt.alloc()) {
        let line = line?;
        if line.as_str().starts_with("#") {
            println!(rt; "{line}")?;
        } else {
            let told = answer(rt.alloc(), line.as_str())?;
            println!(rt; "{told}")?;
        }
    }
    Ok(())
}
