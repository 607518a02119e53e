//! Copies of bodies, functions and CSRs.

ghost use Rattle.std.specs.Prelude.{◌≡◌, IfOk};

use crate::statements::copy_statements;
use crate::widths::copy_shape;
use idl_tree::{
    Argument, Body, CsrBody, FieldBodies, FieldKind, Function, Program, ResetValue, Shape, Variable,
};
use std::alloc::Global;
use udb_base::{Copied, Many, NoMemory, both, copy_two};

/// A part of a program of which a copy can be made. The copy equals its source, and the one refusal
/// is want of memory.
pub trait CopiedPart: Drop {
    fn copy_part(&self, alloc: Global) -> Result<Self, NoMemory>
        ensures { IfOk result (λ copy. copy ≡ self.now) };
}

/// A copy of a list, part by part. The one refusal is want of memory.
pub fn copy_parts<T: CopiedPart>(alloc: Global, parts: &[T]) -> Result<Many<T>, NoMemory>
    ensures { IfOk result (λ copies. copies ≡ parts.now) }
{
    let mut copies = Many::new(alloc);
    for part in parts {
        copies.push(part.copy_part(alloc)?)?;
    }
    Ok(copies)
}

// A copy of a part, where there is one.
fn copy_part_if_any<T: CopiedPart>(alloc: Global, part: &Option<T>) -> Result<Option<T>, NoMemory>
    ensures { IfOk result (λ copy. copy ≡ part.now) }
{
    match part {
        Some(part) => Ok(Some(part.copy_part(alloc)?)),
        None => Ok(None),
    }
}

impl CopiedPart for Variable {
    fn copy_part(&self, alloc: Global) -> Result<Variable, NoMemory> {
        let location = Many::from_slice(alloc, self.location.as_slice());
        let (name, location) = both(self.name.copy(alloc), location)?;
        Ok(Variable {
            base: self.base,
            name,
            location,
            shift: self.shift,
        })
    }
}

impl CopiedPart for Body {
    fn copy_part(&self, alloc: Global) -> Result<Body, NoMemory> {
        let variables = copy_parts(alloc, self.variables.as_slice());
        let statements = copy_statements(alloc, self.statements.as_slice());
        let (variables, statements) = both(variables, statements)?;
        Ok(Body {
            variables,
            statements,
        })
    }
}

impl CopiedPart for Argument {
    fn copy_part(&self, alloc: Global) -> Result<Argument, NoMemory> {
        let (name, shape) = both(self.name.copy(alloc), copy_shape(alloc, &self.shape))?;
        Ok(Argument { shape, name })
    }
}

// A copy of a result's shape, where there is one.
fn copy_result(alloc: Global, shape: &Option<Shape>) -> Result<Option<Shape>, NoMemory>
    ensures { IfOk result (λ copy. copy ≡ shape.now) }
{
    match shape {
        Some(shape) => Ok(Some(copy_shape(alloc, shape)?)),
        None => Ok(None),
    }
}

impl CopiedPart for Function {
    fn copy_part(&self, alloc: Global) -> Result<Function, NoMemory> {
        let heading = both(self.name.copy(alloc), copy_result(alloc, &self.result));
        let arguments = copy_parts(alloc, self.arguments.as_slice());
        let rest = both(arguments, self.body.copy_part(alloc));
        let ((name, result), (arguments, body)) = both(heading, rest)?;
        Ok(Function {
            name,
            result,
            arguments,
            body,
        })
    }
}

impl CopiedPart for FieldKind {
    fn copy_part(&self, alloc: Global) -> Result<FieldKind, NoMemory> {
        match self {
            FieldKind::Plain(kind) => Ok(FieldKind::Plain(*kind)),
            FieldKind::Computed(body) => Ok(FieldKind::Computed(body.copy_part(alloc)?)),
        }
    }
}

impl CopiedPart for ResetValue {
    fn copy_part(&self, alloc: Global) -> Result<ResetValue, NoMemory> {
        match self {
            ResetValue::Plain(number) => Ok(ResetValue::Plain(*number)),
            ResetValue::Computed(body) => Ok(ResetValue::Computed(body.copy_part(alloc)?)),
        }
    }
}

impl CopiedPart for FieldBodies {
    fn copy_part(&self, alloc: Global) -> Result<FieldBodies, NoMemory> {
        let heading = copy_two(alloc, &self.name, &self.present);
        let write = copy_part_if_any(alloc, &self.write);
        let values = both(self.reset.copy_part(alloc), write);
        let bodies = both(self.kind.copy_part(alloc), values);
        let ((name, present), (kind, (reset, write))) = both(heading, bodies)?;
        Ok(FieldBodies {
            name,
            present,
            places: self.places,
            kind,
            reset,
            write,
        })
    }
}

impl CopiedPart for CsrBody {
    fn copy_part(&self, alloc: Global) -> Result<CsrBody, NoMemory> {
        let fields = copy_parts(alloc, self.fields.as_slice());
        let ((name, present), fields) = both(copy_two(alloc, &self.name, &self.present), fields)?;
        Ok(CsrBody {
            name,
            present,
            address: self.address,
            length: self.length,
            fields,
        })
    }
}

impl CopiedPart for Program {
    fn copy_part(&self, alloc: Global) -> Result<Program, NoMemory> {
        let functions = copy_parts(alloc, self.functions.as_slice());
        let (functions, csrs) = both(functions, copy_parts(alloc, self.csrs.as_slice()))?;
        Ok(Program { functions, csrs })
    }
}
