//! Whether kinds fit. A part without a kind has an issue of its own, and fits everywhere.

ghost use Rattle.std.specs.Prelude.{◌≡◌, Some, map};
ghost use Rattle.std.specs.List.{list_all};
ghost use Rattle.idl_spec.specs.Shapes.{of_member, of_given_text, of_written_text, declared_kind};
ghost use Rattle.idl_spec.specs.Demands.{same_kind, suits, bits_kind, flag_kind, comparable, is_choice};
ghost use Rattle.type_kinds.specs.Kinds.{kind_of, kind_if_any};

use idl_forms::operators::same_enum;
use idl_tree::{EnumKind, Shape};
use type_kinds::Kind;

fn is_bits(kind: &Kind) -> bool
    ensures { result ≡ suits bits_kind (Some (kind_of kind.now)) }
{
    match kind {
        Kind::Bits {
            width: _,
            signed: _,
        } => true,
        Kind::Flag | Kind::Member(_) | Kind::GivenText | Kind::WrittenText => false,
    }
}

fn is_flag(kind: &Kind) -> bool
    ensures { result ≡ suits flag_kind (Some (kind_of kind.now)) }
{
    match kind {
        Kind::Flag => true,
        Kind::Bits {
            width: _,
            signed: _,
        } => false,
        Kind::Member(_) | Kind::GivenText | Kind::WrittenText => false,
    }
}

fn is_member(enumeration: EnumKind, kind: &Kind) -> bool
    ensures { result ≡ suits (Some (of_member enumeration)) (Some (kind_of kind.now)) }
{
    match kind {
        Kind::Member(other) => same_enum(enumeration, *other),
        Kind::Bits {
            width: _,
            signed: _,
        } => false,
        Kind::Flag | Kind::GivenText | Kind::WrittenText => false,
    }
}

fn same_kind(wanted: &Kind, kind: &Kind) -> bool
    ensures { result ≡ same_kind (kind_of wanted.now) (kind_of kind.now) }
{
    match wanted {
        Kind::Bits {
            width: _,
            signed: _,
        } => is_bits(kind),
        Kind::Flag => is_flag(kind),
        Kind::Member(enumeration) => is_member(*enumeration, kind),
        Kind::GivenText | Kind::WrittenText => false,
    }
}

/// Whether a kind is bits.
pub fn suits_bits(kind: &Option<Kind>) -> bool
    ensures { result ≡ suits bits_kind (kind_if_any kind.now) }
{
    match kind {
        Some(kind) => is_bits(kind),
        None => true,
    }
}

/// Whether a kind is a truth value.
pub fn suits_flag(kind: &Option<Kind>) -> bool
    ensures { result ≡ suits flag_kind (kind_if_any kind.now) }
{
    match kind {
        Some(kind) => is_flag(kind),
        None => true,
    }
}

/// Whether a kind is a member of an enumeration.
pub fn suits_member(enumeration: EnumKind, kind: &Option<Kind>) -> bool
    ensures { result ≡ suits (Some (of_member enumeration)) (kind_if_any kind.now) }
{
    match kind {
        Some(kind) => is_member(enumeration, kind),
        None => true,
    }
}

/// Whether a kind is one that a declaration gives.
pub fn suits_shape(shape: &Shape, kind: &Option<Kind>) -> bool
    ensures { result ≡ suits (Some (declared_kind shape.now)) (kind_if_any kind.now) }
{
    match shape {
        Shape::Bits {
            signed: _,
            width: _,
        } => suits_bits(kind),
        Shape::Boolean => suits_flag(kind),
        Shape::Enum(enumeration) => suits_member(*enumeration, kind),
    }
}

/// Whether a kind is like a wanted one.
pub fn suits(wanted: &Option<Kind>, kind: &Option<Kind>) -> bool
    ensures { result ≡ suits (kind_if_any wanted.now) (kind_if_any kind.now) }
{
    match wanted {
        Some(wanted) => match kind {
            Some(kind) => same_kind(wanted, kind),
            None => true,
        },
        None => true,
    }
}

/// Whether all kinds are bits.
pub fn suits_all(kinds: &[Option<Kind>]) -> bool
    ensures { result ≡ list_all (suits bits_kind) (map kind_if_any kinds.now) }
{
    for kind in kinds {
        if !suits_bits(kind) {
            return false;
        }
    }
    true
}

fn is_given(kind: &Kind) -> bool
    ensures { result ≡ comparable (Some (kind_of kind.now)) (Some of_written_text) }
{
    match kind {
        Kind::GivenText => true,
        Kind::Bits {
            width: _,
            signed: _,
        } => false,
        Kind::Flag | Kind::Member(_) | Kind::WrittenText => false,
    }
}

fn is_written(kind: &Kind) -> bool
    ensures { result ≡ comparable (Some (kind_of kind.now)) (Some of_given_text) }
{
    match kind {
        Kind::WrittenText => true,
        Kind::Bits {
            width: _,
            signed: _,
        } => false,
        Kind::Flag | Kind::Member(_) | Kind::GivenText => false,
    }
}

fn alike(x: &Kind, y: &Kind) -> bool
    ensures { result ≡ comparable (Some (kind_of x.now)) (Some (kind_of y.now)) }
{
    match x {
        Kind::Bits {
            width: _,
            signed: _,
        } => is_bits(y),
        Kind::Flag => is_flag(y),
        Kind::Member(enumeration) => is_member(*enumeration, y),
        Kind::GivenText => is_written(y),
        Kind::WrittenText => is_given(y),
    }
}

/// Whether `==` compares two kinds: bits, truth values, members of one enumeration, and a text that
/// a parameter gives with a written one.
pub fn comparable(x: &Option<Kind>, y: &Option<Kind>) -> bool
    ensures { result ≡ comparable (kind_if_any x.now) (kind_if_any y.now) }
{
    match x {
        Some(x) => match y {
            Some(y) => alike(x, y),
            None => true,
        },
        None => true,
    }
}

/// Whether two kinds can be the sides of which a test takes one.
pub fn is_choice(x: &Option<Kind>, y: &Option<Kind>) -> bool
    ensures { result ≡ is_choice (kind_if_any x.now) (kind_if_any y.now) }
{
    match x {
        Some(x) => match y {
            Some(y) => same_kind(x, y),
            None => true,
        },
        None => true,
    }
}
