//! Copies of widths and shapes.

ghost use Rattle.std.specs.Prelude.{◌≡◌, IfOk};

use idl_tree::{Shape, Width};
use std::alloc::Global;
use udb_base::{Boxed, Copied, NoMemory, both, copy_if_any};

// A copy in a box of its own.
#[cycle(width_copies)]
fn copy_boxed(alloc: Global, width: &Width) -> Result<Boxed<Width>, NoMemory>
    ensures { IfOk result (λ copy. copy ≡ width.now) }
{
    Boxed::new(alloc, copy_width(alloc, width)?)
}

/// A copy of a width. The one refusal is want of memory.
#[cycle(width_copies)]
pub fn copy_width(alloc: Global, width: &Width) -> Result<Width, NoMemory>
    ensures { IfOk result (λ copy. copy ≡ width.now) }
{
    match width {
        Width::Number(number) => Ok(Width::Number(*number)),
        Width::Word(name) => Ok(Width::Word(name.copy(alloc)?)),
        Width::Plus(a, b) => {
            let (a, b) = both(copy_boxed(alloc, a.get()), copy_boxed(alloc, b.get()))?;
            Ok(Width::Plus(a, b))
        }
        Width::Minus(a, b) => {
            let (a, b) = both(copy_boxed(alloc, a.get()), copy_boxed(alloc, b.get()))?;
            Ok(Width::Minus(a, b))
        }
        Width::Times(a, b) => {
            let (a, b) = both(copy_boxed(alloc, a.get()), copy_boxed(alloc, b.get()))?;
            Ok(Width::Times(a, b))
        }
        Width::Max(a, b) => {
            let (a, b) = both(copy_boxed(alloc, a.get()), copy_boxed(alloc, b.get()))?;
            Ok(Width::Max(a, b))
        }
        Width::Bits { csr, name } => {
            let (csr, name) = both(copy_if_any(alloc, csr), name.copy(alloc))?;
            Ok(Width::Bits { csr, name })
        }
    }
}

/// Copies of two widths, as the ends of a slice or of a loop.
pub fn copy_ends(alloc: Global, a: &Width, b: &Width) -> Result<(Width, Width), NoMemory>
    ensures { IfOk result (λ p. p ≡ (a.now, b.now)) }
{
    both(copy_width(alloc, a), copy_width(alloc, b))
}

/// A copy of a shape. The one refusal is want of memory.
pub fn copy_shape(alloc: Global, shape: &Shape) -> Result<Shape, NoMemory>
    ensures { IfOk result (λ copy. copy ≡ shape.now) }
{
    match shape {
        Shape::Bits { signed, width } => Ok(Shape::Bits {
            signed: *signed,
            width: copy_width(alloc, width)?,
        }),
        Shape::Boolean => Ok(Shape::Boolean),
        Shape::Enum(kind) => Ok(Shape::Enum(*kind)),
    }
}
