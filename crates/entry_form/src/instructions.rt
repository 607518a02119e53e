//! The form of instructions, and that of functions.

ghost use Rattle.std.specs.Prelude.{◌≡◌, ◌++◌, ◌∷◌, [], codes, IfOk};
ghost use Rattle.entry_form.specs.Forms as spec;

use crate::tables::{Table, map_of, push_map_words, titled};
use crate::values::{
    any_of_two, any_value, list_of, number_to, one_of, text_or_number, text_value,
};
use std::alloc::Global;
use udb_base::{Many, NoMemory};
use udb_schema::{Schema, SchemaWord};
use yaml_spec::Tree;

#[tactic(auto, unfolding(crate::specs::Forms::variable_rows))]
fn variable_table(alloc: Global) -> Result<Table, NoMemory>
    ensures { IfOk result (λ t. t ≡ spec.table spec.variable_rows) }
{
    let mut table = Table::new(alloc);
    table.required(alloc, "name", text_value(alloc)?)?;
    table.required(alloc, "location", text_or_number(alloc)?)?;
    table.optional(alloc, "left_shift", number_to(alloc, 31)?)?;
    Ok(table)
}

#[tactic(auto, unfolding(crate::specs::Forms::variables_schema))]
fn variables(alloc: Global) -> Result<Schema, NoMemory>
    ensures { IfOk result (λ s. s ≡ spec.variables_schema) }
{
    let variable = map_of(alloc, variable_table(alloc)?)?;
    list_of(alloc, 0, 16, variable)
}

#[tactic(auto, unfolding(crate::specs::Forms::match_rows))]
fn match_table(alloc: Global) -> Result<Table, NoMemory>
    ensures { IfOk result (λ t. t ≡ spec.table spec.match_rows) }
{
    let mut table = Table::new(alloc);
    table.required(alloc, "match", text_value(alloc)?)?;
    table.optional(alloc, "variables", variables(alloc)?)?;
    Ok(table)
}

#[tactic(auto, unfolding(crate::specs::Forms::match_schema))]
fn match_schema(alloc: Global) -> Result<Schema, NoMemory>
    ensures { IfOk result (λ s. s ≡ spec.match_schema) }
{
    map_of(alloc, match_table(alloc)?)
}

#[tactic(auto, unfolding(crate::specs::Forms::base_rows))]
fn base_table(alloc: Global) -> Result<Table, NoMemory>
    ensures { IfOk result (λ t. t ≡ spec.table spec.base_rows) }
{
    let mut table = Table::new(alloc);
    table.optional(alloc, "RV32", match_schema(alloc)?)?;
    table.optional(alloc, "RV64", match_schema(alloc)?)?;
    Ok(table)
}

#[tactic(auto, unfolding(crate::specs::Forms::by_base))]
fn by_base(alloc: Global) -> Result<Schema, NoMemory>
    ensures { IfOk result (λ s. s ≡ spec.by_base) }
{
    let table = base_table(alloc)?;
    let mut words = Many::new(alloc);
    words.push(SchemaWord::MinProperties(1))?;
    push_map_words(alloc, &mut words, table)?;
    Ok(Schema { words })
}

#[tactic(auto, unfolding(crate::specs::Forms::encoding_schema))]
fn encoding_schema(alloc: Global) -> Result<Schema, NoMemory>
    ensures { IfOk result (λ s. s ≡ spec.encoding_schema) }
{
    let for_all = match_schema(alloc)?;
    any_of_two(alloc, for_all, by_base(alloc)?)
}

#[tactic(auto, unfolding(crate::specs::Forms::base_value))]
fn base_value(alloc: Global) -> Result<Schema, NoMemory>
    ensures { IfOk result (λ s. s ≡ spec.base_value) }
{
    let mut values = Many::new(alloc);
    values.push(Tree::Int(32))?;
    values.push(Tree::Int(64))?;
    one_of(alloc, values)
}

#[tactic(auto, unfolding(crate::specs::Forms::common, crate::specs::Forms::titled, crate::specs::Forms::instruction_rows))]
fn read_table(alloc: Global) -> Result<Table, NoMemory>
    ensures { IfOk result
        (λ t. t ≡ spec.table (spec.titled (codes "instruction") ++ spec.instruction_rows)) }
{
    let mut table = titled(alloc, "instruction")?;
    table.required(alloc, "assembly", text_value(alloc)?)?;
    table.required(alloc, "encoding", encoding_schema(alloc)?)?;
    table.optional(alloc, "definedBy", any_value(alloc))?;
    table.optional(alloc, "base", base_value(alloc)?)?;
    table.optional(alloc, "operation()", text_value(alloc)?)?;
    Ok(table)
}

#[tactic(auto, unfolding(crate::specs::Forms::common, crate::specs::Forms::titled, crate::specs::Forms::instruction_rows, crate::specs::Forms::unread_rows))]
fn table(alloc: Global) -> Result<Table, NoMemory>
    ensures { IfOk result (λ t. t ≡ spec.table
        (spec.titled (codes "instruction") ++ (spec.instruction_rows ++ spec.unread_rows))) }
{
    let mut table = read_table(alloc)?;
    table.optional(alloc, "access", any_value(alloc))?;
    table.optional(alloc, "data_independent_timing", any_value(alloc))?;
    table.optional(alloc, "sail()", any_value(alloc))?;
    table.optional(alloc, "pseudoinstructions", any_value(alloc))?;
    Ok(table)
}

/// The form of an instruction.
#[tactic(auto, unfolding(crate::specs::Forms::instruction_schema))]
pub fn instruction_schema(alloc: Global) -> Result<Schema, NoMemory>
    ensures { IfOk result (λ s. s ≡ spec.instruction_schema) }
{
    map_of(alloc, table(alloc)?)
}

#[tactic(auto, unfolding(crate::specs::Forms::common, crate::specs::Forms::titled))]
fn functions_table(alloc: Global) -> Result<Table, NoMemory>
    ensures { IfOk result (λ t. t ≡ spec.table
        (spec.titled (codes "functions") ++ spec.required (codes "body") spec.text_value ∷ [])) }
{
    let mut table = titled(alloc, "functions")?;
    table.required(alloc, "body", text_value(alloc)?)?;
    Ok(table)
}

/// The form of functions.
#[tactic(auto, unfolding(crate::specs::Forms::functions_schema))]
pub fn functions_schema(alloc: Global) -> Result<Schema, NoMemory>
    ensures { IfOk result (λ s. s ≡ spec.functions_schema) }
{
    map_of(alloc, functions_table(alloc)?)
}
