//! The kinds of expressions.

ghost use Rattle.std.specs.Prelude.{◌≡◌, IfOk, map};
ghost use Rattle.idl_spec.specs.Shapes.{join_kind};
ghost use Rattle.idl_spec.specs.Demands.{kind_at};
ghost use Rattle.type_kinds.specs.Kinds.{kind_if_any};
ghost use Rattle.type_kinds.specs.Views.{view_of};

use crate::kinds::{
    Form, Kind, binary_kind, boxed_copy, choice_kind, kind_holding, numbered_kind, on_two,
    repeated, sized_kind, slice_kind, unary_kind, wider, with_sign, with_width,
};
use crate::views::{View, call_kind, field_kind, new_field_kind, register_kind, word_kind};
use idl_tree::{EnumKind, Expr};
use std::alloc::Global;
use udb_base::{Many, NoMemory, both};

/// The kind of an expression: its width and sign, or what else it is. None where its parts don't
/// give it one. The one refusal is want of memory.
#[cycle(kinds)]
#[tactic(auto, using(idl_spec::specs::ShapeLaws::shapes))]
pub fn shape(alloc: Global, view: &View, e: &Expr) -> Result<Option<Kind>, NoMemory>
    ensures { IfOk result (λ k. kind_if_any k ≡ kind_at (view_of view.now) e.now) }
{
    match e {
        Expr::Number(number) => Ok(Some(kind_holding(alloc, *number)?)),
        Expr::Sized {
            width,
            signed,
            value: _,
        } => Ok(Some(sized_kind(alloc, width, *signed)?)),
        Expr::Text(_) => Ok(Some(Kind::WrittenText)),
        Expr::Flag(_) => Ok(Some(Kind::Flag)),
        Expr::Word(name) => word_kind(alloc, view, name),
        Expr::Member { kind, name: _ } => Ok(Some(Kind::Member(*kind))),
        Expr::Unary { sign, of } => Ok(unary_kind(*sign, shape(alloc, view, of.get())?)),
        Expr::Binary { sign, left, right } => {
            let (x, y) = both(
                shape(alloc, view, left.get()),
                shape(alloc, view, right.get()),
            )?;
            binary_kind(alloc, *sign, x, y)
        }
        Expr::WideLeft { left, by } => {
            let (by, left) = both(boxed_copy(alloc, by), shape(alloc, view, left.get()))?;
            wider(alloc, left, by)
        }
        Expr::Choice { test: _, yes, no } => {
            let (x, y) = both(shape(alloc, view, yes.get()), shape(alloc, view, no.get()))?;
            choice_kind(alloc, x, y)
        }
        Expr::Join(parts) => join_kind(alloc, view, parts.as_slice()),
        Expr::Repeat { times, of } => {
            let (times, of) = both(boxed_copy(alloc, times), shape(alloc, view, of.get()))?;
            repeated(alloc, times, of)
        }
        Expr::Index { of: _, at: _ } => Ok(Some(numbered_kind(alloc, 1)?)),
        Expr::Slice { of: _, high, low } => Ok(Some(slice_kind(alloc, high, low)?)),
        Expr::Call { name, args: _ } => call_kind(alloc, view, name),
        Expr::Signed(of) => Ok(with_sign(shape(alloc, view, of.get())?, true)),
        Expr::Resize { width, of } => {
            let (width, of) = both(boxed_copy(alloc, width), shape(alloc, view, of.get()))?;
            Ok(with_width(of, width))
        }
        Expr::Pc => Ok(Some(register_kind(alloc, view)?)),
        Expr::Encoding => Ok(Some(numbered_kind(alloc, 32)?)),
        Expr::Register(_) => Ok(Some(register_kind(alloc, view)?)),
        Expr::Field { csr, field } => field_kind(alloc, view, csr, field),
        Expr::SoftRead(_) => Ok(Some(register_kind(alloc, view)?)),
        Expr::ReadMemory { bits, at: _ } => Ok(Some(numbered_kind(alloc, u32::from(*bits))?)),
        Expr::NewField(field) => new_field_kind(alloc, view, field),
        Expr::Mode => Ok(Some(Kind::Member(EnumKind::PrivilegeMode))),
        Expr::Implemented(_) => Ok(Some(Kind::Flag)),
        Expr::ImplementedVersion {
            extension: _,
            text: _,
        } => Ok(Some(Kind::Flag)),
    }
}

// The kind of parts side by side.
#[cycle(kinds)]
fn join_kind(alloc: Global, view: &View, parts: &[Expr]) -> Result<Option<Kind>, NoMemory>
    ensures { IfOk result (λ k. kind_if_any k
        ≡ join_kind (map (kind_at (view_of view.now)) parts.now)) }
{
    if parts.is_empty() {
        return Ok(None);
    }
    let mut kind = with_sign(shape(alloc, view, &parts[0])?, false);
    let rest = &parts[1..];
    for part in rest {
        let (x, y) = both(Ok(kind), shape(alloc, view, part))?;
        kind = on_two(alloc, Form::Joined, x, y)?;
    }
    Ok(kind)
}

/// The kinds of expressions, in their order.
pub fn shapes_of(alloc: Global, view: &View, parts: &[Expr]) -> Result<Many<Option<Kind>>, NoMemory>
    ensures { IfOk result (λ ks. map kind_if_any ks
        ≡ map (kind_at (view_of view.now)) parts.now) }
{
    let mut kinds = Many::new(alloc);
    for part in parts {
        kinds.push(shape(alloc, view, part)?)?;
    }
    Ok(kinds)
}
