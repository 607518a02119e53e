//! The entry that a row gives, or the first rule that it breaks.

ghost use Rattle.std.specs.Prelude.{◌≡◌, Ok, Err};
ghost use Rattle.yaml_spec.specs.Texts.{Spelled};
ghost use Rattle.udb_entry.specs.declared.answers.Entry.{Entry};
ghost use Rattle.udb_entry.specs.declared.answers.Breach.{Breach};
ghost use Rattle.entry_form.specs.Forms as forms;
ghost use Rattle.udb_entry.specs.First as spec;
ghost use Rattle.udb_entry.specs.Parts as parts;

use crate::answers::{Entry, EntryFault};
use crate::chains::{both_read, breach_of, examined};
use crate::entries::entry_of;
use crate::rules::{alphabet_rule, name_rule};
use crate::shows::{bad_line, outside_line, place_lines};
use entry_form::schema_of;
use std::alloc::Global;
use udb_base::{Kind, Row};
use udb_schema::{Schema, SchemaFault};
use udb_yaml::read_tree;
use yaml_spec::{Tree, YamlFault};

fn spelling_fault(alloc: Global, fault: YamlFault) -> EntryFault
    ensures { parts.IsUnspelled fault result }
{
    match fault {
        YamlFault::Memory => EntryFault::Memory,
        YamlFault::Bad { line } => breach_of(1, bad_line(alloc, line)),
        YamlFault::Outside { line, word } => breach_of(1, outside_line(alloc, line, word)),
    }
}

fn schema_fault(alloc: Global, fault: SchemaFault) -> EntryFault
    ensures { parts.IsUnfit fault result }
{
    match fault {
        SchemaFault::Memory => EntryFault::Memory,
        SchemaFault::At { path, word } => breach_of(2, place_lines(alloc, path, word)),
    }
}

fn examine_by(alloc: Global, schema: &Schema, kind: Kind, tree: &Tree) -> Result<(), EntryFault>
    requires { schema.now ≡ forms.schema_of kind }
    ensures { parts.IsExamined kind tree.now result }
{
    match schema.validate(alloc, tree) {
        Ok(()) => Ok(()),
        Err(fault) => Err(schema_fault(alloc, fault)),
    }
}

fn examine(alloc: Global, kind: Kind, tree: &Tree) -> Result<(), EntryFault>
    ensures { parts.IsExamined kind tree.now result }
{
    let schema = schema_of(alloc, kind)?;
    examine_by(alloc, &schema, kind, tree)
}

fn entry_by_rules(alloc: Global, row: &Row, tree: &Tree) -> Result<Entry, EntryFault>
    ensures { parts.IsKept row.now tree.now result }
{
    let name = examined(3, name_rule(alloc, &row.name, tree));
    let alphabet = examined(4, alphabet_rule(alloc, row.kind, tree));
    let rest = both_read(alphabet, entry_of(alloc, row.kind, tree));
    match both_read(name, rest) {
        Ok(parts) => Ok(parts.1.1),
        Err(fault) => Err(fault),
    }
}

fn answer_of(alloc: Global, row: &Row, tree: &Tree) -> Result<Entry, EntryFault>
    ensures { Spelled row.now.text tree.now → spec.IsAnswer row.now result }
{
    match examine(alloc, row.kind, tree) {
        Ok(()) => entry_by_rules(alloc, row, tree),
        Err(fault) => Err(fault),
    }
}

fn read(alloc: Global, row: &Row) -> Result<Entry, EntryFault>
    ensures { spec.IsAnswer row.now result }
{
    match read_tree(alloc, row.text.as_str()) {
        Ok(tree) => answer_of(alloc, row, &tree),
        Err(fault) => Err(spelling_fault(alloc, fault)),
    }
}

/// The entry that a row gives, or the first rule that the row breaks: its number, with the lines
/// that show the breach. Rule 1 is that the text is spelled in the YAML profile, 2 that its tree
/// meets the schema of the kind (JSON Schema 2020-12), 3 that the name is the row's, 4 that names
/// have their alphabets, 5 that versions can be read and rise, 6 that a domain has no value twice
/// and no low end above its high end, 7 that matches, variables and locations are well formed, 8
/// that conditions and members can be read, 9 that bodies can be. A rule is examined only where
/// those before it are kept. What each shows stands in `docs/formats/entries.md`. The other refusal
/// is want of memory.
pub fn read_entry(alloc: Global, row: &Row) -> Result<Entry, EntryFault>
    ensures given { (e : Entry) → result ≡ Ok e → spec.Gives row.now e }
    ensures only { (e : Entry) → spec.Gives row.now e → spec.IsOrMemory (Ok e) result }
    ensures broken { (b : Breach) → result ≡ Err (spec.fault_of b) → spec.FirstBroken row.now b }
    ensures broken_only { (b : Breach) → spec.FirstBroken row.now b → spec.IsRefusal b result }
{
    read(alloc, row)
}
