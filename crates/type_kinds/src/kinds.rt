//! Kinds, and what signs do to the kinds of their operands.

ghost use Rattle.std.specs.Prelude.{◌≡◌, false, Option, IfOk, option_map};
ghost use Rattle.idl_tree.specs.declared.widths.Width.TheVariants as wd;
ghost use Rattle.idl_spec.specs.Shapes as meant;
ghost use Rattle.idl_spec.specs.Shapes.{on_bits, on_two, of_bits, unary_kind, binary_kind, choice_kind, kind_holding, domain_kind, declared_kind};
ghost use Rattle.type_kinds.specs.Kinds.{kind_of, kind_if_any, bits_of, only_bits, form_of, formed, is_flag, member_in, agreed};

use idl_copy::copy_width;
use idl_forms::kinds::greatest;
use idl_forms::operators::{least_width, same_enum};
use idl_tree::{Binary, EnumKind, Shape, Unary, Width};
use std::alloc::Global;
use udb_base::{Boxed, Copied, Domain, NoMemory, both};

/// What an expression is: bits of a width, which may depend on parameters, and a sign, a truth
/// value, a member of an enumeration, a text that a parameter gives, or a written text.
#[derive(Drop)]
pub enum Kind {
    Bits { width: Boxed<Width>, signed: bool },
    Flag,
    Member(EnumKind),
    GivenText,
    WrittenText,
}

/// A width and a sign.
#[derive(Drop)]
pub(crate) struct BitsKind {
    pub width: Boxed<Width>,
    pub signed: bool,
}

/// What becomes of two widths.
#[derive(Clone, Copy)]
pub(crate) enum Form {
    Larger,
    OneWider,
    Sum,
    Left,
    Joined,
}

/// A copy of a width in a box of its own. The one refusal is want of memory.
pub fn boxed_copy(alloc: Global, width: &Width) -> Result<Boxed<Width>, NoMemory>
    ensures { IfOk result (λ copy. copy ≡ width.now) }
{
    Boxed::new(alloc, copy_width(alloc, width)?)
}

impl Copied for Kind {
    fn copy(&self, alloc: Global) -> Result<Kind, NoMemory> {
        match self {
            Kind::Bits { width, signed } => Ok(Kind::Bits {
                width: boxed_copy(alloc, width.get())?,
                signed: *signed,
            }),
            Kind::Flag => Ok(Kind::Flag),
            Kind::Member(kind) => Ok(Kind::Member(*kind)),
            Kind::GivenText => Ok(Kind::GivenText),
            Kind::WrittenText => Ok(Kind::WrittenText),
        }
    }
}

/// Unsigned bits of so many.
pub fn numbered_kind(alloc: Global, bits: u32) -> Result<Kind, NoMemory>
    ensures { IfOk result (λ k. kind_of k ≡ of_bits (wd.Number bits) false) }
{
    Ok(Kind::Bits {
        width: Boxed::new(alloc, Width::Number(bits))?,
        signed: false,
    })
}

/// Unsigned bits that hold a number.
pub(crate) fn kind_holding(alloc: Global, number: u128) -> Result<Kind, NoMemory>
    ensures { IfOk result (λ k. kind_of k ≡ kind_holding number) }
{
    numbered_kind(alloc, u32::from(least_width(number)))
}

/// The kind of a parameter of a domain.
pub(crate) fn domain_kind(alloc: Global, domain: &Domain) -> Result<Kind, NoMemory>
    ensures { IfOk result (λ k. kind_of k ≡ domain_kind domain.now) }
{
    match domain {
        Domain::Flags => Ok(Kind::Flag),
        Domain::Words(_) => Ok(Kind::GivenText),
        Domain::Numbers(_) => kind_holding(alloc, u128::from(greatest(domain))),
        Domain::Range { low: _, high } => kind_holding(alloc, u128::from(*high)),
    }
}

/// Bits of a copied width.
pub(crate) fn sized_kind(alloc: Global, width: &Width, signed: bool) -> Result<Kind, NoMemory>
    ensures { IfOk result (λ k. kind_of k ≡ of_bits width.now signed) }
{
    Ok(Kind::Bits {
        width: boxed_copy(alloc, width)?,
        signed,
    })
}

/// The kind that a declaration gives.
pub fn declared_kind(alloc: Global, shape: &Shape) -> Result<Kind, NoMemory>
    ensures { IfOk result (λ k. kind_of k ≡ declared_kind shape.now) }
{
    match shape {
        Shape::Bits { signed, width } => sized_kind(alloc, width, *signed),
        Shape::Boolean => Ok(Kind::Flag),
        Shape::Enum(kind) => Ok(Kind::Member(*kind)),
    }
}

fn larger(alloc: Global, a: Boxed<Width>, b: Boxed<Width>) -> Result<Boxed<Width>, NoMemory>
    ensures { IfOk result (λ w. w ≡ wd.Max a b) }
{
    Boxed::new(alloc, Width::Max(a, b))
}

fn plus(alloc: Global, a: Boxed<Width>, b: Boxed<Width>) -> Result<Boxed<Width>, NoMemory>
    ensures { IfOk result (λ w. w ≡ wd.Plus a b) }
{
    Boxed::new(alloc, Width::Plus(a, b))
}

fn minus(alloc: Global, a: Boxed<Width>, b: Boxed<Width>) -> Result<Boxed<Width>, NoMemory>
    ensures { IfOk result (λ w. w ≡ wd.Minus a b) }
{
    Boxed::new(alloc, Width::Minus(a, b))
}

fn times(alloc: Global, a: Boxed<Width>, b: Boxed<Width>) -> Result<Boxed<Width>, NoMemory>
    ensures { IfOk result (λ w. w ≡ wd.Times a b) }
{
    Boxed::new(alloc, Width::Times(a, b))
}

fn next(alloc: Global, a: Boxed<Width>) -> Result<Boxed<Width>, NoMemory>
    ensures { IfOk result (λ w. w ≡ wd.Plus a (wd.Number 1)) }
{
    let (a, one) = both(Ok(a), Boxed::new(alloc, Width::Number(1)))?;
    plus(alloc, a, one)
}

/// The kind of a slice.
pub(crate) fn slice_kind(alloc: Global, high: &Width, low: &Width) -> Result<Kind, NoMemory>
    ensures { IfOk result (λ k. kind_of k
        ≡ of_bits (wd.Plus (wd.Minus high.now low.now) (wd.Number 1)) false) }
{
    let (high, low) = both(boxed_copy(alloc, high), boxed_copy(alloc, low))?;
    Ok(Kind::Bits {
        width: next(alloc, minus(alloc, high, low)?)?,
        signed: false,
    })
}

/// The width and sign of bits.
pub(crate) fn bits_in(kind: Option<Kind>) -> Option<BitsKind>
    ensures { option_map bits_of result ≡ only_bits (kind_if_any kind) }
{
    match kind? {
        Kind::Bits { width, signed } => Some(BitsKind { width, signed }),
        Kind::Flag => None,
        Kind::Member(_) => None,
        Kind::GivenText => None,
        Kind::WrittenText => None,
    }
}

// Two widths as one.
fn formed(alloc: Global, form: Form, x: BitsKind, y: BitsKind) -> Result<Kind, NoMemory>
    ensures { IfOk result (λ k. kind_of k ≡ formed form x.width x.signed y.width y.signed) }
{
    let (x, s) = (x.width, x.signed);
    let (y, t) = (y.width, y.signed);
    match form {
        Form::Larger => Ok(Kind::Bits {
            width: larger(alloc, x, y)?,
            signed: s && t,
        }),
        Form::OneWider => Ok(Kind::Bits {
            width: next(alloc, larger(alloc, x, y)?)?,
            signed: s && t,
        }),
        Form::Sum => Ok(Kind::Bits {
            width: plus(alloc, x, y)?,
            signed: s && t,
        }),
        Form::Left => Ok(Kind::Bits {
            width: x,
            signed: s,
        }),
        Form::Joined => Ok(Kind::Bits {
            width: plus(alloc, x, y)?,
            signed: false,
        }),
    }
}

/// Two widths as one, where both kinds are bits.
#[tactic(auto, using(crate::proofs::KindLemmas::two_steps))]
pub(crate) fn on_two(
    alloc: Global,
    form: Form,
    x: Option<Kind>,
    y: Option<Kind>,
) -> Result<Option<Kind>, NoMemory>
    ensures { IfOk result (λ k. kind_if_any k
        ≡ on_two (kind_if_any x) (kind_if_any y) (formed form)) }
{
    match bits_in(x) {
        Some(x) => match bits_in(y) {
            Some(y) => Ok(Some(formed(alloc, form, x, y)?)),
            None => Ok(None),
        },
        None => Ok(None),
    }
}

// What a sign makes of two widths; the others compare, or join truth values.
fn form_of(sign: Binary) -> Option<Form>
    ensures { (x y : Option meant.Kind) → binary_kind sign x y ≡ form_of result x y }
{
    match sign {
        Binary::BitOr | Binary::BitXor | Binary::BitAnd => Some(Form::Larger),
        Binary::Left | Binary::Right | Binary::RightSigned => Some(Form::Left),
        Binary::Add | Binary::Sub | Binary::Mul => Some(Form::Larger),
        Binary::Div | Binary::Rem => Some(Form::Larger),
        Binary::WideAdd | Binary::WideSub => Some(Form::OneWider),
        Binary::WideMul => Some(Form::Sum),
        Binary::Or | Binary::And => None,
        Binary::Equal | Binary::NotEqual => None,
        Binary::Below | Binary::AtMost => None,
        Binary::Above | Binary::AtLeast => None,
    }
}

/// The kind of a sign between operands of these kinds.
pub(crate) fn binary_kind(
    alloc: Global,
    sign: Binary,
    x: Option<Kind>,
    y: Option<Kind>,
) -> Result<Option<Kind>, NoMemory>
    ensures { IfOk result (λ k. kind_if_any k
        ≡ binary_kind sign (kind_if_any x) (kind_if_any y)) }
{
    match form_of(sign) {
        Some(form) => on_two(alloc, form, x, y),
        None => Ok(Some(Kind::Flag)),
    }
}

/// Bits as they are.
#[tactic(auto, using(crate::proofs::KindLemmas::one_steps))]
fn same_bits(x: Option<Kind>) -> Option<Kind>
    ensures { kind_if_any result ≡ on_bits (kind_if_any x) of_bits }
{
    let BitsKind { width, signed } = bits_in(x)?;
    Some(Kind::Bits { width, signed })
}

/// The kind of a sign before an operand of this kind.
pub(crate) fn unary_kind(sign: Unary, x: Option<Kind>) -> Option<Kind>
    ensures { kind_if_any result ≡ unary_kind sign (kind_if_any x) }
{
    match sign {
        Unary::Not => Some(Kind::Flag),
        Unary::Invert | Unary::Minus => same_bits(x),
    }
}

/// Bits with another sign.
#[tactic(auto, using(crate::proofs::KindLemmas::one_steps))]
pub(crate) fn with_sign(x: Option<Kind>, sign: bool) -> Option<Kind>
    ensures { kind_if_any result ≡ on_bits (kind_if_any x) (λ w s. of_bits w sign) }
{
    let width = bits_in(x)?.width;
    Some(Kind::Bits {
        width,
        signed: sign,
    })
}

/// Bits with another width.
#[tactic(auto, using(crate::proofs::KindLemmas::one_steps))]
pub(crate) fn with_width(x: Option<Kind>, width: Boxed<Width>) -> Option<Kind>
    ensures { kind_if_any result ≡ on_bits (kind_if_any x) (λ w s. of_bits width s) }
{
    let signed = bits_in(x)?.signed;
    Some(Kind::Bits { width, signed })
}

/// Bits that are wider by a width.
#[tactic(auto, using(crate::proofs::KindLemmas::one_steps))]
pub(crate) fn wider(
    alloc: Global,
    x: Option<Kind>,
    by: Boxed<Width>,
) -> Result<Option<Kind>, NoMemory>
    ensures { IfOk result (λ k. kind_if_any k
        ≡ on_bits (kind_if_any x) (λ w s. of_bits (wd.Plus w by) s)) }
{
    match bits_in(x) {
        Some(bits) => Ok(Some(Kind::Bits {
            signed: bits.signed,
            width: plus(alloc, bits.width, by)?,
        })),
        None => Ok(None),
    }
}

/// Bits as often as a width says.
#[tactic(auto, using(crate::proofs::KindLemmas::one_steps))]
pub(crate) fn repeated(
    alloc: Global,
    times_of: Boxed<Width>,
    x: Option<Kind>,
) -> Result<Option<Kind>, NoMemory>
    ensures { IfOk result (λ k. kind_if_any k
        ≡ on_bits (kind_if_any x) (λ w s. of_bits (wd.Times times_of w) false)) }
{
    match bits_in(x) {
        Some(bits) => Ok(Some(Kind::Bits {
            width: times(alloc, times_of, bits.width)?,
            signed: false,
        })),
        None => Ok(None),
    }
}

fn is_flag(kind: &Option<Kind>) -> bool
    ensures { result ≡ is_flag (kind_if_any kind.now) }
{
    match kind {
        Some(kind) => match kind {
            Kind::Bits {
                width: _,
                signed: _,
            } => false,
            Kind::Flag => true,
            Kind::Member(_) => false,
            Kind::GivenText => false,
            Kind::WrittenText => false,
        },
        None => false,
    }
}

fn member_in(kind: &Option<Kind>) -> Option<EnumKind>
    ensures { result ≡ member_in (kind_if_any kind.now) }
{
    match kind {
        Some(kind) => match kind {
            Kind::Bits {
                width: _,
                signed: _,
            } => None,
            Kind::Flag => None,
            Kind::Member(kind) => Some(*kind),
            Kind::GivenText => None,
            Kind::WrittenText => None,
        },
        None => None,
    }
}

// A truth value where both are, a member where both are of one enumeration.
fn agreed(x: &Option<Kind>, y: &Option<Kind>) -> Option<Kind>
    ensures { kind_if_any result ≡ agreed (kind_if_any x.now) (kind_if_any y.now) }
{
    if is_flag(x) && is_flag(y) {
        return Some(Kind::Flag);
    }
    let one = member_in(x)?;
    let other = member_in(y)?;
    if same_enum(one, other) {
        return Some(Kind::Member(one));
    }
    None
}

/// The kind of two sides of which a test takes one: both count.
#[tactic(auto, using(crate::proofs::KindLemmas::choice_steps))]
pub(crate) fn choice_kind(
    alloc: Global,
    x: Option<Kind>,
    y: Option<Kind>,
) -> Result<Option<Kind>, NoMemory>
    ensures { IfOk result (λ k. kind_if_any k ≡ choice_kind (kind_if_any x) (kind_if_any y)) }
{
    match agreed(&x, &y) {
        Some(kind) => Ok(Some(kind)),
        None => on_two(alloc, Form::Larger, x, y),
    }
}
