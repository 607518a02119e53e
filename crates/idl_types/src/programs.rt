//! Programs all of whose bodies are typed.

ghost use Rattle.std.specs.Prelude.{◌≡◌, true, IfOk};
ghost use Rattle.udb_base.specs.declared.spaces.Full.{Full};
ghost use Rattle.udb_spec.specs.Spaces.{Valid};
ghost use Rattle.idl_spec.specs.ProgramFits.{program_fits};
ghost use Rattle.idl_types.specs.Assembled.{program_bodies, IsTypedProgram};

use crate::bodies::TypedBodies;
use idl_copy::CopiedPart;
use idl_tree::Program;
use std::alloc::Global;
use std::marker::Model;
use udb_base::{NoMemory, Space};

/// A program all of whose bodies are typed. It is seen as the program.
#[derive(Drop)]
pub struct TypedProgram {
    program: Program,
}

impl Model for TypedProgram {
    ghost use Rattle.idl_tree.specs.contracts.programs.Program as whole;
    ghost use Rattle.idl_tree.specs.declared.programs.Program.{Program};

    ghost Value = { Program };

    ghost coded = { whole.the_row.coded };

    ghost view = { λ t. t.program };
}

impl TypedProgram {
    /// The program.
    pub fn program(&self) -> &Program
        ensures { result.now ≡ self.now }
    {
        &self.program
    }
}

/// A program whose bodies were typed one by one: those of the functions, then of the fields, each
/// where it stands in the program. The bodies equal the program's, of which a copy is kept; the one
/// refusal is want of memory.
pub fn assemble(
    alloc: Global,
    space: &Space,
    program: &Program,
    bodies: TypedBodies,
) -> Result<TypedProgram, NoMemory>
    requires bodies { bodies ≡ program_bodies program.now }
    requires typed { IsTypedProgram space.now program.now }
    ensures program { IfOk result (λ p. p ≡ program.now) }
    ensures fits { IfOk result (λ p. (full : Full) → Valid space.now full
        → program_fits space.now full program.now ≡ true) }
{
    let program = program.copy_part(alloc)?;
    Ok(TypedProgram { program })
}
