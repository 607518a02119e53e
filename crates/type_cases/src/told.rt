//! What is told of faults.

use idl_types::TypeFault;
use std::alloc::Global;
use udb_base::{Full, Name, NoMemory, Space};
use udb_full::print_full;

// The lines of a full configuration on one line.
fn push_full(alloc: Global, space: &Space, full: &Full, text: &mut String) -> Result<(), NoMemory> {
    let lines = print_full(alloc, space, full)?;
    for (place, line) in lines.as_slice().iter().enumerate() {
        text.push_str(if place == 0 { " " } else { ", " })?;
        text.push_str(line.as_str())?;
    }
    Ok(())
}

fn shown_text(
    alloc: Global,
    space: &Space,
    sort: &str,
    node: u32,
    shows: &Full,
) -> Result<String, NoMemory> {
    let mut text = format!(in alloc; "{sort} {node}")?;
    push_full(alloc, space, shows, &mut text)?;
    Ok(text)
}

fn named_text(alloc: Global, sort: &str, node: u32, name: &Name) -> Result<String, NoMemory> {
    format!(in alloc; "{sort} {node} {}", name.as_str())
}

/// The sort of a fault, its node, and the name or the full configuration that shows it.
pub fn fault_text(alloc: Global, space: &Space, fault: &TypeFault) -> Result<String, NoMemory> {
    match fault {
        TypeFault::Memory => "no memory".to_string(alloc),
        TypeFault::Unknown { node, name } => named_text(alloc, "unknown", *node, name),
        TypeFault::Mismatch { node } => format!(in alloc; "mismatch {node}"),
        TypeFault::Width { node, shows } => shown_text(alloc, space, "width", *node, shows),
        TypeFault::Slice { node, shows } => shown_text(alloc, space, "slice", *node, shows),
        TypeFault::Absent { node, shows } => shown_text(alloc, space, "absent", *node, shows),
        TypeFault::Cost => "cost".to_string(alloc),
        TypeFault::Order { node, name } => named_text(alloc, "order", *node, name),
    }
}
