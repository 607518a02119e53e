//! Lists of what was read.

ghost use Rattle.std.specs.Prelude.{◌≡◌, [], ◌∷◌, ◌++◌, IfOk};

use idl_tree::{Many, NoMemory};
use std::alloc::Global;

/// A list of one part.
pub fn only<T: Drop>(alloc: Global, part: T) -> Result<Many<T>, NoMemory>
    ensures { IfOk result (λ xs. xs ≡ part ∷ []) }
{
    with(Many::new(alloc), part)
}

/// The list with one part more at its end.
pub fn with<T: Drop>(parts: Many<T>, part: T) -> Result<Many<T>, NoMemory>
    ensures { IfOk result (λ xs. xs ≡ parts ++ part ∷ []) }
{
    let mut parts = parts;
    parts.push(part)?;
    Ok(parts)
}
