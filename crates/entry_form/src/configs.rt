//! The form of configurations.

ghost use Rattle.std.specs.Prelude.{◌≡◌, ◌++◌, codes, IfOk, OnOk};
ghost use Rattle.entry_form.specs.Forms as spec;

use crate::tables::{Table, add, common, names, one_name, push_map_words};
use crate::values::{
    LARGEST, any_value, exactly, flag_value, no_value, of_type, one_word, text_value,
};
use std::alloc::Global;
use udb_base::{Chars, Many, NoMemory};
use udb_schema::{
    Additional, Names, Schema, SchemaProperties, SchemaWord, SchemaWords, Schemas, TypeName,
};

#[tactic(auto, unfolding(crate::specs::Forms::given_value))]
fn given_value(alloc: Global) -> Result<Schema, NoMemory>
    ensures { IfOk result (λ s. s ≡ spec.given_value) }
{
    let types = [TypeName::Boolean, TypeName::Integer, TypeName::Text];
    let mut words = Many::new(alloc);
    words.push(of_type(alloc, &types)?)?;
    words.push(SchemaWord::Minimum(0))?;
    words.push(SchemaWord::Maximum(i128::from(LARGEST)))?;
    Ok(Schema { words })
}

#[tactic(auto, unfolding(crate::specs::Forms::givens))]
fn givens(alloc: Global) -> Result<Schema, NoMemory>
    ensures { IfOk result (λ s. s ≡ spec.givens) }
{
    let value = Additional::Meets(given_value(alloc)?);
    let mut words = Many::new(alloc);
    words.push(of_type(alloc, &[TypeName::Map])?)?;
    words.push(SchemaWord::AdditionalProperties(value))?;
    Ok(Schema { words })
}

#[tactic(auto, unfolding(crate::specs::Forms::member_words))]
fn push_member_words(alloc: Global, words: &mut SchemaWords) -> Result<(), NoMemory>
    ensures { OnOk result (words.new ≡ words.old ++ spec.member_words) }
{
    let mut properties = Many::new(alloc);
    add(alloc, &mut properties, "name", text_value(alloc)?)?;
    add(alloc, &mut properties, "version", any_value(alloc))?;
    words.push(SchemaWord::Required(one_name(alloc, "name")?))?;
    words.push(SchemaWord::AdditionalProperties(Additional::Closed))?;
    words.push(SchemaWord::Properties(properties))
}

#[tactic(auto, unfolding(crate::specs::Forms::member))]
fn member(alloc: Global) -> Result<Schema, NoMemory>
    ensures { IfOk result (λ s. s ≡ spec.member) }
{
    let mut words = Many::new(alloc);
    words.push(of_type(alloc, &[TypeName::Text, TypeName::Map])?)?;
    push_member_words(alloc, &mut words)?;
    Ok(Schema { words })
}

#[tactic(auto, unfolding(crate::specs::Forms::members))]
fn members(alloc: Global) -> Result<Schema, NoMemory>
    ensures { IfOk result (λ s. s ≡ spec.members) }
{
    let types = [TypeName::Text, TypeName::Map, TypeName::List];
    let mut words = Many::new(alloc);
    words.push(of_type(alloc, &types)?)?;
    words.push(SchemaWord::Items(member(alloc)?))?;
    push_member_words(alloc, &mut words)?;
    Ok(Schema { words })
}

#[tactic(auto, unfolding(crate::specs::Forms::common, crate::specs::Forms::config_rows))]
fn table(alloc: Global) -> Result<Table, NoMemory>
    ensures { IfOk result (λ t. t ≡ spec.table
        (spec.common (codes "architecture configuration") ++ spec.config_rows)) }
{
    let mut table = common(alloc, "architecture configuration")?;
    table.required(alloc, "type", text_value(alloc)?)?;
    table.optional(alloc, "params", givens(alloc)?)?;
    table.optional(alloc, "mandatory_extensions", members(alloc)?)?;
    table.optional(alloc, "prohibited_extensions", members(alloc)?)?;
    table.optional(alloc, "additional_extensions", flag_value(alloc)?)?;
    table.optional(alloc, "implemented_extensions", members(alloc)?)?;
    Ok(table)
}

fn push_without(alloc: Global, to: &mut SchemaProperties, keys: &[Chars]) -> Result<(), NoMemory>
    ensures { OnOk result (to.new ≡ to.old ++ spec.without keys.now) }
{
    for key in keys {
        add(alloc, to, key.as_str(), no_value(alloc)?)?;
    }
    Ok(())
}

#[tactic(auto, unfolding(crate::specs::Forms::config_type))]
fn config_type(alloc: Global, name: &str, keys: &[Chars]) -> Result<Schema, NoMemory>
    ensures { IfOk result (λ s. s ≡ spec.config_type name.now keys.now) }
{
    let mut properties = Many::new(alloc);
    add(alloc, &mut properties, "type", exactly(alloc, name)?)?;
    push_without(alloc, &mut properties, keys)?;
    Ok(one_word(alloc, SchemaWord::Properties(properties))?)
}

#[tactic(auto, unfolding(crate::specs::Forms::optional_keys))]
fn optional_keys(alloc: Global) -> Result<Names, NoMemory>
    ensures { IfOk result (λ names. names ≡ spec.optional_keys) }
{
    names(
        alloc,
        &[
            "params",
            "mandatory_extensions",
            "prohibited_extensions",
            "additional_extensions",
            "implemented_extensions",
        ],
    )
}

#[tactic(auto, unfolding(crate::specs::Forms::partial_keys))]
fn partial_keys(alloc: Global) -> Result<Names, NoMemory>
    ensures { IfOk result (λ names. names ≡ spec.partial_keys) }
{
    names(
        alloc,
        &[
            "mandatory_extensions",
            "prohibited_extensions",
            "additional_extensions",
        ],
    )
}

#[tactic(auto, unfolding(crate::specs::Forms::unconfigured_type))]
fn unconfigured_type(alloc: Global) -> Result<Schema, NoMemory>
    ensures { IfOk result (λ s. s ≡ spec.unconfigured_type) }
{
    let keys = optional_keys(alloc)?;
    Ok(config_type(alloc, "unconfigured", keys.as_slice())?)
}

#[tactic(auto, unfolding(crate::specs::Forms::partial_type))]
fn partial_type(alloc: Global) -> Result<Schema, NoMemory>
    ensures { IfOk result (λ s. s ≡ spec.partial_type) }
{
    let keys = one_name(alloc, "implemented_extensions")?;
    Ok(config_type(alloc, "partially configured", keys.as_slice())?)
}

#[tactic(auto, unfolding(crate::specs::Forms::full_type))]
fn full_type(alloc: Global) -> Result<Schema, NoMemory>
    ensures { IfOk result (λ s. s ≡ spec.full_type) }
{
    let keys = partial_keys(alloc)?;
    Ok(config_type(alloc, "fully configured", keys.as_slice())?)
}

fn config_types(alloc: Global) -> Result<Schemas, NoMemory>
    ensures { IfOk result (λ ss. ss ≡ spec.config_types) }
{
    let mut types = Many::new(alloc);
    types.push(unconfigured_type(alloc)?)?;
    types.push(partial_type(alloc)?)?;
    types.push(full_type(alloc)?)?;
    Ok(types)
}

/// The form of a configuration.
#[tactic(auto, unfolding(crate::specs::Forms::config_schema))]
pub fn config_schema(alloc: Global) -> Result<Schema, NoMemory>
    ensures { IfOk result (λ s. s ≡ spec.config_schema) }
{
    let table = table(alloc)?;
    let mut words = Many::new(alloc);
    words.push(SchemaWord::AnyOf(config_types(alloc)?))?;
    push_map_words(alloc, &mut words, table)?;
    Ok(Schema { words })
}
