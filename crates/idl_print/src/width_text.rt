//! The text of widths and shapes, and the pieces that they share with expressions.

ghost use Rattle.std.specs.Prelude.{◌≡◌, ◌++◌, OnOk};
ghost use Rattle.std.specs.Fmt.{decimal};
ghost use Rattle.idl_tree.specs.Print.{within, field_text, bits_text, width_form, width_text, range_text, enum_word, signed_word, shape_text};

use idl_tree::{EnumKind, Shape, Width};
use std::alloc::Global;
use udb_base::{Chars, Name, NoMemory};

/// Appends the decimal digits of a number.
pub fn push_number(alloc: Global, out: &mut Chars, number: u128) -> Result<(), NoMemory>
    ensures { OnOk result (out.new ≡ out.old ++ decimal number) }
{
    let digits = format!(in alloc; "{number}")?;
    out.push_str(digits.as_str())
}

/// Appends the field of a CSR.
pub fn push_field(out: &mut Chars, csr: &Name, field: &Name) -> Result<(), NoMemory>
    ensures { OnOk result (out.new ≡ out.old ++ field_text csr.now field.now) }
{
    out.push_str("CSR[")?;
    out.push_str(csr.as_str())?;
    out.push_str("].")?;
    out.push_str(field.as_str())
}

fn push_bits(out: &mut Chars, csr: &Option<Name>, name: &Name) -> Result<(), NoMemory>
    ensures { OnOk result (out.new ≡ out.old ++ bits_text csr.now name.now) }
{
    out.push_str("$bits(")?;
    match csr {
        Some(csr) => push_field(out, csr, name)?,
        None => out.push_str(name.as_str())?,
    }
    out.push_str(")")
}

#[tactic(auto, using(idl_tree::proofs::Printed::width_forms))]
fn looseness(width: &Width) -> u8
    ensures { result ≡ (width_form width.now).0 }
{
    match width {
        Width::Number(_) => 0,
        Width::Word(_) => 0,
        Width::Plus(_, _) => 2,
        Width::Minus(_, _) => 2,
        Width::Times(_, _) => 1,
        Width::Max(_, _) => 0,
        Width::Bits { csr: _, name: _ } => 0,
    }
}

/// Appends a width, in parentheses where it is looser than `level`: 0 is an atom, 1 a product and
/// 2 a sum.
#[cycle(width_text)]
pub fn push_width_within(
    alloc: Global,
    out: &mut Chars,
    level: u8,
    width: &Width,
) -> Result<(), NoMemory>
    ensures { OnOk result (out.new ≡ out.old ++ within level (width_form width.now)) }
{
    if looseness(width) <= level {
        return push_width(alloc, out, width);
    }
    out.push_str("(")?;
    push_width(alloc, out, width)?;
    out.push_str(")")
}

/// Appends a width.
#[cycle(width_text)]
#[tactic(auto, using(idl_tree::proofs::Printed::width_forms))]
pub fn push_width(alloc: Global, out: &mut Chars, width: &Width) -> Result<(), NoMemory>
    ensures { OnOk result (out.new ≡ out.old ++ width_text width.now) }
{
    match width {
        Width::Number(number) => push_number(alloc, out, u128::from(*number)),
        Width::Word(name) => out.push_str(name.as_str()),
        Width::Plus(a, b) => {
            push_width_within(alloc, out, 2, a.get())?;
            out.push_str("+")?;
            push_width_within(alloc, out, 1, b.get())
        }
        Width::Minus(a, b) => {
            push_width_within(alloc, out, 2, a.get())?;
            out.push_str("-")?;
            push_width_within(alloc, out, 1, b.get())
        }
        Width::Times(a, b) => {
            push_width_within(alloc, out, 0, a.get())?;
            out.push_str("*")?;
            push_width_within(alloc, out, 0, b.get())
        }
        Width::Max(a, b) => {
            out.push_str("max(")?;
            push_width(alloc, out, a.get())?;
            out.push_str(", ")?;
            push_width(alloc, out, b.get())?;
            out.push_str(")")
        }
        Width::Bits { csr, name } => push_bits(out, csr, name),
    }
}

/// Appends the range of a slice.
pub fn push_range(alloc: Global, out: &mut Chars, high: &Width, low: &Width) -> Result<(), NoMemory>
    ensures { OnOk result (out.new ≡ out.old ++ range_text high.now low.now) }
{
    out.push_str("[")?;
    push_width(alloc, out, high)?;
    out.push_str(":")?;
    push_width(alloc, out, low)?;
    out.push_str("]")
}

/// The word of an enumeration.
pub fn enum_word(kind: EnumKind) -> &'static str
    ensures { result.now ≡ enum_word kind }
{
    match kind {
        EnumKind::PrivilegeMode => "PrivilegeMode",
        EnumKind::ExceptionCode => "ExceptionCode",
        EnumKind::CsrFieldType => "CsrFieldType",
    }
}

fn signed_word(signed: bool) -> &'static str
    ensures { result.now ≡ signed_word signed }
{
    if signed { "signed " } else { "" }
}

/// Appends a shape.
pub fn push_shape(alloc: Global, out: &mut Chars, shape: &Shape) -> Result<(), NoMemory>
    ensures { OnOk result (out.new ≡ out.old ++ shape_text shape.now) }
{
    match shape {
        Shape::Bits { signed, width } => {
            out.push_str(signed_word(*signed))?;
            out.push_str("Bits<")?;
            push_width(alloc, out, width)?;
            out.push_str(">")
        }
        Shape::Boolean => out.push_str("Boolean"),
        Shape::Enum(kind) => out.push_str(enum_word(*kind)),
    }
}
