//! The form of control and status registers.

ghost use Rattle.std.specs.Prelude.{◌≡◌, ◌++◌, codes, IfOk, OnOk};
ghost use Rattle.entry_form.specs.Forms as spec;

use crate::tables::{Table, map_of, push_map_words, titled};
use crate::values::{
    any_of_two, any_value, either, exactly, has_key, number_to, number_value, of_type, one_of,
    push_text, text_or_number, text_value,
};
use std::alloc::Global;
use udb_base::{Many, NoMemory};
use udb_schema::{Additional, Schema, SchemaWord, SchemaWords, TypeName};
use yaml_spec::Tree;

#[tactic(auto, unfolding(crate::specs::Forms::field_type))]
fn field_type(alloc: Global) -> Result<Schema, NoMemory>
    ensures { IfOk result (λ s. s ≡ spec.field_type) }
{
    let mut values = Many::new(alloc);
    push_text(alloc, &mut values, "RO")?;
    push_text(alloc, &mut values, "RO-H")?;
    push_text(alloc, &mut values, "RW")?;
    push_text(alloc, &mut values, "RW-R")?;
    push_text(alloc, &mut values, "RW-H")?;
    push_text(alloc, &mut values, "RW-RH")?;
    one_of(alloc, values)
}

#[tactic(auto, unfolding(crate::specs::Forms::place_rows))]
fn place_table(alloc: Global) -> Result<Table, NoMemory>
    ensures { IfOk result (λ t. t ≡ spec.table spec.place_rows) }
{
    let mut table = Table::new(alloc);
    table.optional(alloc, "location", text_or_number(alloc)?)?;
    table.optional(alloc, "location_rv32", text_or_number(alloc)?)?;
    table.optional(alloc, "location_rv64", text_or_number(alloc)?)?;
    Ok(table)
}

#[tactic(auto, unfolding(crate::specs::Forms::place_rows, crate::specs::Forms::field_rows))]
fn field_table(alloc: Global) -> Result<Table, NoMemory>
    ensures { IfOk result (λ t. t ≡ spec.table (spec.place_rows ++ spec.field_rows)) }
{
    let mut table = place_table(alloc)?;
    table.optional(alloc, "type", field_type(alloc)?)?;
    table.optional(alloc, "type()", text_value(alloc)?)?;
    table.optional(alloc, "reset_value", number_value(alloc)?)?;
    table.optional(alloc, "reset_value()", text_value(alloc)?)?;
    table.optional(alloc, "sw_write(csr_value)", text_value(alloc)?)?;
    table.optional(alloc, "definedBy", any_value(alloc))?;
    table.optional(alloc, "long_name", text_value(alloc)?)?;
    table.optional(alloc, "description", text_value(alloc)?)?;
    Ok(table)
}

#[tactic(auto, unfolding(crate::specs::Forms::placed_by_base))]
fn placed_by_base(alloc: Global) -> Result<Schema, NoMemory>
    ensures { IfOk result (λ s. s ≡ spec.placed_by_base) }
{
    let narrow = has_key(alloc, "location_rv32")?;
    any_of_two(alloc, narrow, has_key(alloc, "location_rv64")?)
}

// One of two keys.
fn one_key(alloc: Global, first: &str, second: &str) -> Result<SchemaWord, NoMemory>
    ensures { IfOk result
        (λ w. w ≡ spec.either (spec.has_key first.now) (spec.has_key second.now)) }
{
    let one = has_key(alloc, first)?;
    either(alloc, one, has_key(alloc, second)?)
}

fn one_location(alloc: Global) -> Result<SchemaWord, NoMemory>
    ensures { IfOk result
        (λ w. w ≡ spec.either (spec.has_key (codes "location")) spec.placed_by_base) }
{
    let one = has_key(alloc, "location")?;
    either(alloc, one, placed_by_base(alloc)?)
}

#[tactic(auto, unfolding(crate::specs::Forms::field_words))]
fn push_field_words(alloc: Global, words: &mut SchemaWords) -> Result<(), NoMemory>
    ensures { OnOk result (words.new ≡ words.old ++ spec.field_words) }
{
    words.push(one_location(alloc)?)?;
    words.push(one_key(alloc, "type", "type()")?)?;
    words.push(one_key(alloc, "reset_value", "reset_value()")?)
}

#[tactic(auto, unfolding(crate::specs::Forms::field_schema))]
fn field_schema(alloc: Global) -> Result<Schema, NoMemory>
    ensures { IfOk result (λ s. s ≡ spec.field_schema) }
{
    let table = field_table(alloc)?;
    let mut words = Many::new(alloc);
    push_field_words(alloc, &mut words)?;
    push_map_words(alloc, &mut words, table)?;
    Ok(Schema { words })
}

#[tactic(auto, unfolding(crate::specs::Forms::fields_schema))]
fn fields_schema(alloc: Global) -> Result<Schema, NoMemory>
    ensures { IfOk result (λ s. s ≡ spec.fields_schema) }
{
    let field = Additional::Meets(field_schema(alloc)?);
    let mut words = Many::new(alloc);
    words.push(of_type(alloc, &[TypeName::Map])?)?;
    words.push(SchemaWord::MinProperties(1))?;
    words.push(SchemaWord::MaxProperties(64))?;
    words.push(SchemaWord::AdditionalProperties(field))?;
    Ok(Schema { words })
}

#[tactic(auto, unfolding(crate::specs::Forms::length_value))]
fn length_value(alloc: Global) -> Result<Schema, NoMemory>
    ensures { IfOk result (λ s. s ≡ spec.length_value) }
{
    let mut values = Many::new(alloc);
    values.push(Tree::Int(32))?;
    values.push(Tree::Int(64))?;
    push_text(alloc, &mut values, "MXLEN")?;
    one_of(alloc, values)
}

#[tactic(auto, unfolding(crate::specs::Forms::common, crate::specs::Forms::titled, crate::specs::Forms::csr_rows))]
fn table(alloc: Global) -> Result<Table, NoMemory>
    ensures { IfOk result (λ t. t ≡ spec.table (spec.titled (codes "csr") ++ spec.csr_rows)) }
{
    let mut table = titled(alloc, "csr")?;
    table.required(alloc, "address", number_to(alloc, 4095)?)?;
    table.required(alloc, "length", length_value(alloc)?)?;
    table.required(alloc, "priv_mode", exactly(alloc, "M")?)?;
    table.required(alloc, "fields", fields_schema(alloc)?)?;
    table.optional(alloc, "definedBy", any_value(alloc))?;
    table.optional(alloc, "writable", any_value(alloc))?;
    Ok(table)
}

/// The form of a control and status register.
#[tactic(auto, unfolding(crate::specs::Forms::csr_schema))]
pub fn csr_schema(alloc: Global) -> Result<Schema, NoMemory>
    ensures { IfOk result (λ s. s ≡ spec.csr_schema) }
{
    map_of(alloc, table(alloc)?)
}
