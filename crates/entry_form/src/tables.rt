//! Tables of the keys of maps, and the schemas that are made from them.

ghost use Rattle.std.specs.Prelude.{◌≡◌, ◌∷◌, ◌++◌, [], map, IfOk, OnOk};
ghost use Rattle.entry_form.specs.Forms as spec;
ghost use Rattle.udb_schema.specs.declared.words.SchemaWord.TheVariants as word;

use crate::values::{exactly, of_type, text_value};
use std::alloc::Global;
use udb_base::{Chars, Many, NoMemory};
use udb_schema::{
    Additional, Names, Schema, SchemaProperties, SchemaProperty, SchemaWord, SchemaWords, TypeName,
};

/// The keys of a map: those that it must have, and the forms of the values of all.
#[derive(Drop)]
pub struct Table {
    pub keys: Names,
    pub properties: SchemaProperties,
}

/// Texts as keys.
pub fn names(alloc: Global, keys: &[&str]) -> Result<Names, NoMemory>
    ensures { IfOk result (λ names. names ≡ map (λ k. k.now) keys.now) }
{
    let mut names = Many::new(alloc);
    for key in keys {
        names.push(Chars::of(alloc, key)?)?;
    }
    Ok(names)
}

/// One key.
pub fn one_name(alloc: Global, name: &str) -> Result<Names, NoMemory>
    ensures { IfOk result (λ names. names ≡ name.now ∷ []) }
{
    let mut names = Many::new(alloc);
    names.push(Chars::of(alloc, name)?)?;
    Ok(names)
}

/// Appends a key with the form of its value.
pub fn add(
    alloc: Global,
    to: &mut SchemaProperties,
    key: &str,
    form: Schema,
) -> Result<(), NoMemory>
    ensures { OnOk result (to.new ≡ to.old ++ spec.property key.now form ∷ []) }
{
    let key = Chars::of(alloc, key)?;
    to.push(SchemaProperty { key, schema: form })
}

impl Table {
    /// The table without keys.
    pub fn new(alloc: Global) -> Table
        ensures { result ≡ spec.table [] }
    {
        Table {
            keys: Many::new(alloc),
            properties: Many::new(alloc),
        }
    }

    /// Adds a key that may be missing.
    pub fn optional(&mut self, alloc: Global, key: &str, form: Schema) -> Result<(), NoMemory>
        ensures { OnOk result (self.new ≡ spec.with_optional self.old key.now form) }
    {
        add(alloc, &mut self.properties, key, form)
    }

    /// Adds a key that must be there.
    pub fn required(&mut self, alloc: Global, key: &str, form: Schema) -> Result<(), NoMemory>
        ensures { OnOk result (self.new ≡ spec.with_required self.old key.now form) }
    {
        add(alloc, &mut self.properties, key, form)?;
        self.keys.push(Chars::of(alloc, key)?)
    }
}

/// Appends what a map says that has a table's keys and no others.
#[tactic(auto, unfolding(crate::specs::Forms::map_words))]
pub fn push_map_words(alloc: Global, words: &mut SchemaWords, table: Table) -> Result<(), NoMemory>
    ensures { OnOk result (words.new ≡ words.old ++ spec.map_words table) }
{
    let Table { keys, properties } = table;
    words.push(of_type(alloc, &[TypeName::Map])?)?;
    words.push(SchemaWord::Required(keys))?;
    words.push(SchemaWord::AdditionalProperties(Additional::Closed))?;
    words.push(SchemaWord::Properties(properties))
}

/// The schema of a map with a table's keys and no others.
pub fn map_of(alloc: Global, table: Table) -> Result<Schema, NoMemory>
    ensures { IfOk result (λ s. s ≡ spec.schema (spec.map_words table)) }
{
    let mut words = Many::new(alloc);
    push_map_words(alloc, &mut words, table)?;
    Ok(Schema { words })
}

/// The keys that each kind has.
#[tactic(auto, unfolding(crate::specs::Forms::common))]
pub fn common(alloc: Global, kind: &str) -> Result<Table, NoMemory>
    ensures { IfOk result (λ t. t ≡ spec.table (spec.common kind.now)) }
{
    let mut table = Table::new(alloc);
    table.optional(alloc, "$schema", text_value(alloc)?)?;
    table.required(alloc, "kind", exactly(alloc, kind)?)?;
    table.required(alloc, "name", text_value(alloc)?)?;
    table.required(alloc, "description", text_value(alloc)?)?;
    Ok(table)
}

/// The keys that each kind but configurations has.
#[tactic(auto, unfolding(crate::specs::Forms::common, crate::specs::Forms::titled))]
pub fn titled(alloc: Global, kind: &str) -> Result<Table, NoMemory>
    ensures { IfOk result (λ t. t ≡ spec.table (spec.titled kind.now)) }
{
    let mut table = common(alloc, kind)?;
    table.required(alloc, "long_name", text_value(alloc)?)?;
    Ok(table)
}
