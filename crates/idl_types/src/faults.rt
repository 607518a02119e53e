//! Why a body isn't typed.

ghost use Rattle.std.specs.Prelude.{◌≡◌, IfSome};
ghost use Rattle.idl_spec.specs.Faults.{unknown_at, mismatch_at, order_at};
ghost use Rattle.idl_types.specs.Refusals.{IsTold};

use std::alloc::Global;
use udb_base::{Copied, Full, Name};

/// The first fault of a body: the causes in this order, and of one cause the first node. Nodes are
/// counted from 0 in prefix order, and the first is the body's header. `shows` is a valid full
/// configuration in which the node is reached and its demand isn't met.
#[derive(Drop)]
pub enum TypeFault {
    /// Want of memory, which is no fault of the body.
    Memory,
    /// A name that nothing has.
    Unknown { node: u32, name: Name },
    /// Kinds that don't fit.
    Mismatch { node: u32 },
    /// A width, an amount or a bound out of its range.
    Width { node: u32, shows: Full },
    /// Places that cut no slice.
    Slice { node: u32, shows: Full },
    /// A parameter without a value, or a field or CSR that isn't there.
    Absent { node: u32, shows: Full },
    /// A demand whose widths name more than two parameters or multiply two that name some, or a
    /// cost past 1,048,576.
    Cost,
    /// A function that is declared later.
    Order { node: u32, name: Name },
}

/// The number of a node, where there is one.
pub(crate) fn number_of(node: usize) -> Option<u32>
    ensures { IfSome result (λ number. number ≡ node) }
{
    u32::try_from(node).ok()
}

// The number of a node with a copy of a name, where memory sufficed.
fn numbered(alloc: Global, node: usize, name: &Name) -> Option<(u32, Name)>
    ensures { IfSome result (λ p. p ≡ (node, name.now)) }
{
    let node = number_of(node)?;
    let name = name.copy(alloc).ok()?;
    Some((node, name))
}

/// The fault of an unknown name at a node, or want of memory.
pub(crate) fn unknown(alloc: Global, node: usize, name: &Name) -> TypeFault
    ensures { IsTold (λ f. f ≡ unknown_at node name.now) result }
{
    match numbered(alloc, node, name) {
        Some((node, name)) => TypeFault::Unknown { node, name },
        None => TypeFault::Memory,
    }
}

/// The fault of a mismatch at a node, or want of memory.
pub(crate) fn mismatch(node: usize) -> TypeFault
    ensures { IsTold (λ f. f ≡ mismatch_at node) result }
{
    match number_of(node) {
        Some(node) => TypeFault::Mismatch { node },
        None => TypeFault::Memory,
    }
}

/// The fault of a later function at a node, or want of memory.
pub(crate) fn order(alloc: Global, node: usize, name: &Name) -> TypeFault
    ensures { IsTold (λ f. f ≡ order_at node name.now) result }
{
    match numbered(alloc, node, name) {
        Some((node, name)) => TypeFault::Order { node, name },
        None => TypeFault::Memory,
    }
}
