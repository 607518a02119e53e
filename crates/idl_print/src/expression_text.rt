//! The text of expressions.

ghost use Rattle.std.specs.Prelude.{◌≡◌, ◌++◌, OnOk, codes, map};
ghost use Rattle.std.specs.Fmt.{decimal};
ghost use Rattle.idl_print.specs.StatementLines.{memory_word};
ghost use Rattle.idl_tree.specs.Print.{within, unary_word, binary_word, flag_word, quote_word, sized_text, member_text, separator, commas, call_text, resize_word, implemented_word, version_word, version_text, expr_form, expr_text};

use crate::width_text::{
    enum_word, push_field, push_number, push_range, push_width, push_width_within,
};
use idl_tree::{Binary, EnumKind, Expr, Unary, Width};
use std::alloc::Global;
use udb_base::{Chars, Name, NoMemory};

fn unary_word(sign: Unary) -> &'static str
    ensures { result.now ≡ unary_word sign }
{
    match sign {
        Unary::Not => "!",
        Unary::Invert => "~",
        Unary::Minus => "-",
    }
}

fn binary_word(sign: Binary) -> &'static str
    ensures { result.now ≡ binary_word sign }
{
    match sign {
        Binary::Or => " || ",
        Binary::And => " && ",
        Binary::BitOr => " | ",
        Binary::BitXor => " ^ ",
        Binary::BitAnd => " & ",
        Binary::Equal => " == ",
        Binary::NotEqual => " != ",
        Binary::Below => " < ",
        Binary::AtMost => " <= ",
        Binary::Above => " > ",
        Binary::AtLeast => " >= ",
        Binary::Left => " << ",
        Binary::Right => " >> ",
        Binary::RightSigned => " >>> ",
        Binary::Add => " + ",
        Binary::Sub => " - ",
        Binary::WideAdd => " `+ ",
        Binary::WideSub => " `- ",
        Binary::Mul => " * ",
        Binary::WideMul => " `* ",
        Binary::Div => " / ",
        Binary::Rem => " % ",
    }
}

fn flag_word(flag: bool) -> &'static str
    ensures { result.now ≡ flag_word flag }
{
    if flag { "true" } else { "false" }
}

fn quote_word(signed: bool) -> &'static str
    ensures { result.now ≡ quote_word signed }
{
    if signed { "'sd" } else { "'d" }
}

/// What stands before the part at a place of a list.
pub fn separator(place: usize) -> &'static str
    ensures { result.now ≡ separator place }
{
    if place == 0 { "" } else { ", " }
}

fn push_sized(
    alloc: Global,
    out: &mut Chars,
    width: &Width,
    signed: bool,
    value: u128,
) -> Result<(), NoMemory>
    ensures { OnOk result (out.new ≡ out.old ++ sized_text width.now signed value) }
{
    push_width_within(alloc, out, 0, width)?;
    out.push_str(quote_word(signed))?;
    push_number(alloc, out, value)
}

fn push_quoted(out: &mut Chars, text: &Chars) -> Result<(), NoMemory>
    ensures { OnOk result (out.new ≡ out.old ++ codes "\"" ++ text.now ++ codes "\"") }
{
    out.push_str("\"")?;
    out.push_str(text.as_str())?;
    out.push_str("\"")
}

fn push_member(out: &mut Chars, kind: EnumKind, name: &Name) -> Result<(), NoMemory>
    ensures { OnOk result (out.new ≡ out.old ++ member_text kind name.now) }
{
    out.push_str(enum_word(kind))?;
    out.push_str("::")?;
    out.push_str(name.as_str())
}

fn push_resize(alloc: Global, out: &mut Chars, width: &Width) -> Result<(), NoMemory>
    ensures { OnOk result (out.new ≡ out.old ++ resize_word width.now) }
{
    out.push_str("$resize<")?;
    push_width(alloc, out, width)?;
    out.push_str(">(")
}

/// Appends a word for memory with its count of bits, up to its arguments, as in `read_memory<32>(`.
pub fn push_memory(alloc: Global, out: &mut Chars, word: &str, bits: u8) -> Result<(), NoMemory>
    ensures { OnOk result (out.new ≡ out.old ++ memory_word word.now bits) }
{
    out.push_str(word)?;
    push_number(alloc, out, u128::from(bits))?;
    out.push_str(">(")
}

fn push_implemented(out: &mut Chars, name: &Name) -> Result<(), NoMemory>
    ensures { OnOk result (out.new ≡ out.old ++ implemented_word ++ name.now ++ codes ")") }
{
    out.push_str("implemented?(ExtensionName::")?;
    out.push_str(name.as_str())?;
    out.push_str(")")
}

fn push_version(out: &mut Chars, text: &Chars) -> Result<(), NoMemory>
    ensures { OnOk result (out.new ≡ out.old ++ version_text text.now) }
{
    out.push_str(", \"")?;
    out.push_str(text.as_str())?;
    out.push_str("\")")
}

fn push_implemented_version(out: &mut Chars, name: &Name, text: &Chars) -> Result<(), NoMemory>
    ensures { OnOk result (out.new ≡ out.old ++ version_word ++ name.now ++ version_text text.now) }
{
    out.push_str("implemented_version?(ExtensionName::")?;
    out.push_str(name.as_str())?;
    push_version(out, text)
}

#[tactic(auto, using(idl_tree::proofs::Printed::expr_forms))]
fn looseness(e: &Expr) -> u8
    ensures { result ≡ (expr_form e.now).0 }
{
    match e {
        Expr::Number(_) => 0,
        Expr::Sized {
            width: _,
            signed: _,
            value: _,
        } => 0,
        Expr::Text(_) => 0,
        Expr::Flag(_) => 0,
        Expr::Word(_) => 0,
        Expr::Member { kind: _, name: _ } => 0,
        Expr::Unary { sign: _, of: _ } => 1,
        Expr::Binary {
            sign: _,
            left: _,
            right: _,
        } => 2,
        Expr::WideLeft { left: _, by: _ } => 2,
        Expr::Choice {
            test: _,
            yes: _,
            no: _,
        } => 2,
        Expr::Join(_) => 0,
        Expr::Repeat { times: _, of: _ } => 0,
        Expr::Index { of: _, at: _ } => 0,
        Expr::Slice {
            of: _,
            high: _,
            low: _,
        } => 0,
        Expr::Call { name: _, args: _ } => 0,
        Expr::Signed(_) => 0,
        Expr::Resize { width: _, of: _ } => 0,
        Expr::Pc => 0,
        Expr::Encoding => 0,
        Expr::Register(_) => 0,
        Expr::Field { csr: _, field: _ } => 0,
        Expr::SoftRead(_) => 0,
        Expr::ReadMemory { bits: _, at: _ } => 0,
        Expr::NewField(_) => 0,
        Expr::Mode => 0,
        Expr::Implemented(_) => 0,
        Expr::ImplementedVersion {
            extension: _,
            text: _,
        } => 0,
    }
}

// Appends an expression, in parentheses where it is looser than `level`: 0 is an atom, 1 unary and
// 2 binary or ternary.
#[cycle(expression_text)]
fn push_within(alloc: Global, out: &mut Chars, level: u8, e: &Expr) -> Result<(), NoMemory>
    ensures { OnOk result (out.new ≡ out.old ++ within level (expr_form e.now)) }
{
    if looseness(e) <= level {
        return push_expression(alloc, out, e);
    }
    push_enclosed(alloc, out, "(", e, ")")
}

/// Appends an expression between two texts.
#[cycle(expression_text)]
pub fn push_enclosed(
    alloc: Global,
    out: &mut Chars,
    before: &str,
    e: &Expr,
    after: &str,
) -> Result<(), NoMemory>
    ensures { OnOk result (out.new ≡ out.old ++ before.now ++ expr_text e.now ++ after.now) }
{
    out.push_str(before)?;
    push_expression(alloc, out, e)?;
    out.push_str(after)
}

/// Appends an expression.
#[cycle(expression_text)]
#[tactic(auto, using(idl_tree::proofs::Printed::expr_forms))]
pub fn push_expression(alloc: Global, out: &mut Chars, e: &Expr) -> Result<(), NoMemory>
    ensures { OnOk result (out.new ≡ out.old ++ expr_text e.now) }
{
    match e {
        Expr::Number(number) => push_number(alloc, out, *number),
        Expr::Sized {
            width,
            signed,
            value,
        } => push_sized(alloc, out, width, *signed, *value),
        Expr::Text(text) => push_quoted(out, text),
        Expr::Flag(flag) => out.push_str(flag_word(*flag)),
        Expr::Word(name) => out.push_str(name.as_str()),
        Expr::Member { kind, name } => push_member(out, *kind, name),
        Expr::Unary { sign, of } => {
            out.push_str(unary_word(*sign))?;
            push_within(alloc, out, 1, of.get())
        }
        Expr::Binary { sign, left, right } => {
            push_within(alloc, out, 1, left.get())?;
            out.push_str(binary_word(*sign))?;
            push_within(alloc, out, 1, right.get())
        }
        Expr::WideLeft { left, by } => {
            push_within(alloc, out, 1, left.get())?;
            out.push_str(" `<< ")?;
            push_width_within(alloc, out, 0, by)
        }
        Expr::Choice { test, yes, no } => {
            push_within(alloc, out, 1, test.get())?;
            out.push_str(" ? ")?;
            push_within(alloc, out, 1, yes.get())?;
            out.push_str(" : ")?;
            push_within(alloc, out, 1, no.get())
        }
        Expr::Join(parts) => {
            out.push_str("{")?;
            push_commas(alloc, out, parts.as_slice())?;
            out.push_str("}")
        }
        Expr::Repeat { times, of } => {
            out.push_str("{")?;
            push_width(alloc, out, times)?;
            push_enclosed(alloc, out, "{", of.get(), "}}")
        }
        Expr::Index { of, at } => {
            push_within(alloc, out, 0, of.get())?;
            push_enclosed(alloc, out, "[", at.get(), "]")
        }
        Expr::Slice { of, high, low } => {
            push_within(alloc, out, 0, of.get())?;
            push_range(alloc, out, high, low)
        }
        Expr::Call { name, args } => push_call(alloc, out, name, args.as_slice()),
        Expr::Signed(of) => push_enclosed(alloc, out, "$signed(", of.get(), ")"),
        Expr::Resize { width, of } => {
            push_resize(alloc, out, width)?;
            push_enclosed(alloc, out, "", of.get(), ")")
        }
        Expr::Pc => out.push_str("$pc"),
        Expr::Encoding => out.push_str("$encoding"),
        Expr::Register(at) => push_enclosed(alloc, out, "X[", at.get(), "]"),
        Expr::Field { csr, field } => push_field(out, csr, field),
        Expr::SoftRead(at) => push_enclosed(alloc, out, "CSR[", at.get(), "].sw_read()"),
        Expr::ReadMemory { bits, at } => {
            push_memory(alloc, out, "read_memory<", *bits)?;
            push_enclosed(alloc, out, "", at.get(), ")")
        }
        Expr::NewField(name) => {
            out.push_str("csr_value.")?;
            out.push_str(name.as_str())
        }
        Expr::Mode => out.push_str("mode()"),
        Expr::Implemented(name) => push_implemented(out, name),
        Expr::ImplementedVersion { extension, text } => {
            push_implemented_version(out, extension, text)
        }
    }
}

/// Appends a call of a function.
#[cycle(expression_text)]
pub fn push_call(alloc: Global, out: &mut Chars, name: &Name, args: &[Expr]) -> Result<(), NoMemory>
    ensures { OnOk result (out.new ≡ out.old ++ call_text name.now (map expr_text args.now)) }
{
    out.push_str(name.as_str())?;
    out.push_str("(")?;
    push_commas(alloc, out, args)?;
    out.push_str(")")
}

// Appends expressions with a comma and a space between two.
#[cycle(expression_text)]
fn push_commas(alloc: Global, out: &mut Chars, all: &[Expr]) -> Result<(), NoMemory>
    ensures { OnOk result (out.new ≡ out.old ++ commas (map expr_text all.now)) }
{
    for (place, next) in all.iter().enumerate() {
        out.push_str(separator(place))?;
        push_expression(alloc, out, next)?;
    }
    Ok(())
}
