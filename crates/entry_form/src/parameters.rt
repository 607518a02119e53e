//! The form of parameters.

ghost use Rattle.std.specs.Prelude.{◌≡◌, ◌++◌, codes, IfOk};
ghost use Rattle.entry_form.specs.Forms as spec;

use crate::tables::{Table, map_of, titled};
use crate::values::{any_value, exactly, list_of, number_value, one_word, text_value};
use std::alloc::Global;
use udb_base::{Many, NoMemory};
use udb_schema::{Schema, SchemaWord};

#[tactic(auto, unfolding(crate::specs::Forms::listed_domain))]
fn listed_domain(alloc: Global, name: &str, value: Schema) -> Result<Schema, NoMemory>
    ensures { IfOk result (λ s. s ≡ spec.listed_domain name.now value) }
{
    let mut table = Table::new(alloc);
    table.required(alloc, "type", exactly(alloc, name)?)?;
    table.required(alloc, "enum", list_of(alloc, 1, 128, value)?)?;
    map_of(alloc, table)
}

#[tactic(auto, unfolding(crate::specs::Forms::boolean_domain))]
fn boolean_domain(alloc: Global) -> Result<Schema, NoMemory>
    ensures { IfOk result (λ s. s ≡ spec.boolean_domain) }
{
    let mut table = Table::new(alloc);
    table.required(alloc, "type", exactly(alloc, "boolean")?)?;
    map_of(alloc, table)
}

#[tactic(auto, unfolding(crate::specs::Forms::ranged_domain))]
fn ranged_domain(alloc: Global) -> Result<Schema, NoMemory>
    ensures { IfOk result (λ s. s ≡ spec.ranged_domain) }
{
    let mut table = Table::new(alloc);
    table.required(alloc, "type", exactly(alloc, "integer")?)?;
    table.required(alloc, "minimum", number_value(alloc)?)?;
    table.required(alloc, "maximum", number_value(alloc)?)?;
    map_of(alloc, table)
}

#[tactic(auto, unfolding(crate::specs::Forms::domain_schema))]
fn domain_schema(alloc: Global) -> Result<Schema, NoMemory>
    ensures { IfOk result (λ s. s ≡ spec.domain_schema) }
{
    let mut forms = Many::new(alloc);
    forms.push(boolean_domain(alloc)?)?;
    forms.push(listed_domain(alloc, "integer", number_value(alloc)?)?)?;
    forms.push(ranged_domain(alloc)?)?;
    forms.push(listed_domain(alloc, "string", text_value(alloc)?)?)?;
    one_word(alloc, SchemaWord::AnyOf(forms))
}

#[tactic(auto, unfolding(crate::specs::Forms::common, crate::specs::Forms::titled, crate::specs::Forms::parameter_rows))]
fn table(alloc: Global) -> Result<Table, NoMemory>
    ensures { IfOk result
        (λ t. t ≡ spec.table (spec.titled (codes "parameter") ++ spec.parameter_rows)) }
{
    let mut table = titled(alloc, "parameter")?;
    table.required(alloc, "schema", domain_schema(alloc)?)?;
    table.optional(alloc, "definedBy", any_value(alloc))?;
    table.optional(alloc, "requirements", any_value(alloc))?;
    Ok(table)
}

/// The form of a parameter.
#[tactic(auto, unfolding(crate::specs::Forms::parameter_schema))]
pub fn parameter_schema(alloc: Global) -> Result<Schema, NoMemory>
    ensures { IfOk result (λ s. s ≡ spec.parameter_schema) }
{
    map_of(alloc, table(alloc)?)
}
