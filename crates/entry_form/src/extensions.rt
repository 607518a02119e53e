//! The form of extensions.

ghost use Rattle.std.specs.Prelude.{◌≡◌, ◌++◌, codes, IfOk};
ghost use Rattle.entry_form.specs.Forms as spec;

use crate::tables::{Table, map_of, titled};
use crate::values::{any_value, flag_value, list_of, text_or_number, text_value};
use std::alloc::Global;
use udb_base::NoMemory;
use udb_schema::Schema;

#[tactic(auto, unfolding(crate::specs::Forms::version_rows))]
fn version_table(alloc: Global) -> Result<Table, NoMemory>
    ensures { IfOk result (λ t. t ≡ spec.table spec.version_rows) }
{
    let mut table = Table::new(alloc);
    table.required(alloc, "version", text_or_number(alloc)?)?;
    table.optional(alloc, "breaking", flag_value(alloc)?)?;
    table.optional(alloc, "state", text_value(alloc)?)?;
    table.optional(alloc, "ratification_date", any_value(alloc))?;
    Ok(table)
}

fn versions(alloc: Global) -> Result<Schema, NoMemory>
    ensures { IfOk result (λ s. s ≡ spec.list_of 1 64 (spec.map_of spec.version_rows)) }
{
    let version = map_of(alloc, version_table(alloc)?)?;
    list_of(alloc, 1, 64, version)
}

#[tactic(auto, unfolding(crate::specs::Forms::common, crate::specs::Forms::titled, crate::specs::Forms::extension_rows))]
fn table(alloc: Global) -> Result<Table, NoMemory>
    ensures { IfOk result
        (λ t. t ≡ spec.table (spec.titled (codes "extension") ++ spec.extension_rows)) }
{
    let mut table = titled(alloc, "extension")?;
    table.required(alloc, "versions", versions(alloc)?)?;
    table.optional(alloc, "requirements", any_value(alloc))?;
    table.optional(alloc, "type", any_value(alloc))?;
    Ok(table)
}

/// The form of an extension.
#[tactic(auto, unfolding(crate::specs::Forms::extension_schema))]
pub fn extension_schema(alloc: Global) -> Result<Schema, NoMemory>
    ensures { IfOk result (λ s. s ≡ spec.extension_schema) }
{
    map_of(alloc, table(alloc)?)
}
