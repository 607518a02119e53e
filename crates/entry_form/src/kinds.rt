//! The form of each kind.

ghost use Rattle.std.specs.Prelude.{◌≡◌, IfOk};
ghost use Rattle.entry_form.specs.Forms as spec;

use crate::configs::config_schema;
use crate::csrs::csr_schema;
use crate::extensions::extension_schema;
use crate::instructions::{functions_schema, instruction_schema};
use crate::parameters::parameter_schema;
use std::alloc::Global;
use udb_base::{Kind, NoMemory};
use udb_schema::Schema;

/// The schema that the trees of a kind's entries meet: the keys that they must and may have, and the
/// forms of the values. A key that a table doesn't list is refused.
pub fn schema_of(alloc: Global, kind: Kind) -> Result<Schema, NoMemory>
    ensures { IfOk result (λ s. s ≡ spec.schema_of kind) }
{
    match kind {
        Kind::Extension => extension_schema(alloc),
        Kind::Parameter => parameter_schema(alloc),
        Kind::Instruction => instruction_schema(alloc),
        Kind::Csr => csr_schema(alloc),
        Kind::Functions => functions_schema(alloc),
        Kind::Config => config_schema(alloc),
    }
}
