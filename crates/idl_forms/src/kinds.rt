//! The kinds of expressions in a full configuration, and values in a kind or a shape.

ghost use Rattle.std.specs.Prelude.{◌≡◌, ◌≤◌, false, Option, None, Some, IfSome, map, option_map};
ghost use Rattle.std.specs.Option.{option_copied};
ghost use Rattle.idl_tree.specs.declared.widths.Width.TheVariants as wd;
ghost use Rattle.idl_tree.specs.declared.expressions.Expr.TheOpen.{Expr-F};
ghost use Rattle.idl_width.specs.Numbers as widths;
ghost use Rattle.idl_width.specs.Numbers.{IsClipped};
ghost use Rattle.idl_spec.specs.Values.{brought_to};
ghost use Rattle.idl_spec.specs.Harts.{and_then, required};
ghost use Rattle.idl_spec.specs.Shapes.{shape, shape_step, greatest, of_bits, register_width, parameter_named, function_named};
ghost use Rattle.idl_spec.specs.Shapes as meant;
ghost use Rattle.idl_spec.specs.Settings.{Setting, Scope, names_of, kind_of_value};
ghost use Rattle.idl_spec.specs.Forms.{in_kind};
ghost use Rattle.idl_spec.specs.Mean.{in_shape, in_shape_of};
ghost use Rattle.idl_forms.specs.States.{as_scalar, as_value, scope_of, Finds, Maps, AnswersWith};
ghost use Rattle.idl_forms.specs.Scenes.{setting_of};
ghost use Rattle.idl_forms.specs.Kinds.{numbered, numbered_if_any, IsSmallKind};
ghost use Rattle.idl_forms.specs.NumberedKinds as by_number;
ghost use Rattle.idl_forms.specs.Ready.{IsScene};

use crate::fields::{csr_named, field_named};
use crate::names::{has_variable, local, parameter_named};
use crate::operators::{least_width, same_enum};
use crate::scenes::{Scene, width_number};
use crate::values::{Local, Part, Scalar, Stop, Value, required, scalar_in};
use idl_bits::Bits;
use idl_tree::{Binary, EnumKind, Expr, Function, Shape, Unary};
use idl_width::{BitsOf, bits_among, clip, difference, larger, product, sum};
use udb_base::{Domain, Name};
use udb_cond::{number_or, param_place};

/// Bits by the number of their width and their sign, or another kind.
#[derive(Clone, Copy)]
pub enum Kind {
    Bits { width: i64, signed: bool },
    Flag,
    Member(EnumKind),
    GivenText,
    WrittenText,
}

/// Two widths, and whether both are signed.
#[derive(Clone, Copy)]
pub struct BothBits {
    pub left: i64,
    pub right: i64,
    pub signed: bool,
}

fn unsigned(width: i64) -> Option<Kind>
    requires { IsClipped width }
    ensures value { result ≡ by_number.unsigned width }
    ensures small { IfSome result IsSmallKind }
{
    Some(Kind::Bits {
        width,
        signed: false,
    })
}

#[tactic(auto, using(crate::proofs::KindNumbers::small_numbers))]
fn kind_holding(number: u128) -> Kind
    ensures value { (e : Setting) → result ≡ numbered e (meant.kind_holding number) }
    ensures small { IsSmallKind result }
{
    Kind::Bits {
        width: i64::from(least_width(number)),
        signed: false,
    }
}

/// The greatest number of a domain.
pub fn greatest(domain: &Domain) -> u64
    ensures { result ≡ greatest domain.now }
{
    match domain {
        Domain::Numbers(numbers) => {
            let mut most = 0;
            for number in numbers.as_slice() {
                most = most.max(*number);
            }
            most
        }
        Domain::Range { low: _, high } => *high,
        Domain::Flags => 0,
        Domain::Words(_) => 0,
    }
}

fn domain_kind(domain: &Domain) -> Kind
    ensures value { (e : Setting) → result ≡ numbered e (meant.domain_kind domain.now) }
    ensures small { IsSmallKind result }
{
    match domain {
        Domain::Flags => Kind::Flag,
        Domain::Words(_) => Kind::GivenText,
        Domain::Numbers(_) => kind_holding(u128::from(greatest(domain))),
        Domain::Range { low: _, high } => kind_holding(u128::from(*high)),
    }
}

fn declared_kind(scene: &Scene, shape: &Shape) -> Kind
    requires ready { IsScene scene.now }
    ensures value { result ≡ numbered (setting_of scene.now) (meant.declared_kind shape.now) }
    ensures small { IsSmallKind result }
{
    match shape {
        Shape::Bits { signed, width } => Kind::Bits {
            width: width_number(scene, width),
            signed: *signed,
        },
        Shape::Boolean => Kind::Flag,
        Shape::Enum(kind) => Kind::Member(*kind),
    }
}

#[tactic(auto, using(crate::proofs::KindNumbers::small_numbers))]
fn kind_of(value: Scalar) -> Kind
    ensures value { (e : Setting) → result ≡ numbered e (kind_of_value (as_scalar value)) }
    ensures small { IsSmallKind result }
{
    match value {
        Scalar::Bits(bits) => Kind::Bits {
            width: i64::from(bits.width()),
            signed: bits.signed(),
        },
        Scalar::Flag(_) => Kind::Flag,
        Scalar::Member { kind, number: _ } => Kind::Member(kind),
    }
}

// The width of a variable of the encoding.
fn variable_kind(scene: &Scene, name: &Name) -> Option<Kind>
    requires ready { IsScene scene.now }
    ensures value { result ≡ numbered_if_any (setting_of scene.now)
        (Some (of_bits (wd.Bits None name.now) false)) }
    ensures small { IfSome result IsSmallKind }
{
    let registers = u64::from(scene.registers);
    let bits = bits_among(registers, scene.widths.as_slice(), &None, name);
    unsigned(i64::from(bits))
}

// The width of a register, which is that of MXLEN where there is one.
fn register_kind(scene: &Scene) -> Option<Kind>
    requires ready { IsScene scene.now }
    ensures value { result ≡ numbered_if_any (setting_of scene.now)
        (Some (of_bits (register_width scene.now.space.now.params) false)) }
    ensures small { IfSome result IsSmallKind }
{
    match param_place(scene.space, "MXLEN") {
        Some(_) => unsigned(clip(number_or(0, scene.space, scene.full, "MXLEN"))),
        None => unsigned(32),
    }
}

fn parameter_kind(scene: &Scene, name: &Name) -> Option<Kind>
    requires ready { IsScene scene.now }
    ensures value { result ≡ numbered_if_any (setting_of scene.now)
        (option_map (λ p. meant.domain_kind p.domain)
        (parameter_named scene.now.space.now.params name.now)) }
    ensures small { IfSome result IsSmallKind }
{
    let param = parameter_named(scene.space.params.as_slice(), name)?;
    Some(domain_kind(&param.domain))
}

fn word_kind(scene: &Scene, scope: &[Local], name: &Name) -> Option<Kind>
    requires ready { IsScene scene.now }
    ensures value { result ≡ numbered_if_any (setting_of scene.now)
        (meant.word_kind (names_of (setting_of scene.now) (scope_of scope.now)) name.now) }
    ensures small { IfSome result IsSmallKind }
{
    if let Some(value) = local(scope, name) {
        return Some(kind_of(value));
    }
    if has_variable(scene, name) {
        return variable_kind(scene, name);
    }
    parameter_kind(scene, name)
}

// The bits of a field of a CSR.
fn field_bits(registers: u8, scope: &[BitsOf], csr: &Name, field: &Name) -> u8
    ensures { result ≡ widths.bits_among registers scope.now (Some csr.now) field.now }
{
    for one in scope {
        if is_field(one, csr, field) {
            return if registers == 64 { one.rv64 } else { one.rv32 };
        }
    }
    0
}

fn is_field(one: &BitsOf, csr: &Name, field: &Name) -> bool
    ensures { result ≡ widths.is_named one.now (Some csr.now) field.now }
{
    match &one.csr {
        Some(name) => name == csr && one.name == *field,
        None => false,
    }
}

fn field_kind(scene: &Scene, csr: &Name, field: &Name) -> Option<Kind>
    requires ready { IsScene scene.now }
    ensures value { (scope : Scope) → result ≡ numbered_if_any (setting_of scene.now)
        (meant.field_kind (names_of (setting_of scene.now) scope) csr.now field.now) }
    ensures small { IfSome result IsSmallKind }
{
    let body = csr_named(scene, csr)?;
    field_named(body.fields.as_slice(), field)?;
    let bits = field_bits(scene.registers, scene.widths.as_slice(), csr, field);
    unsigned(i64::from(bits))
}

fn new_field_kind(scene: &Scene, field: &Name) -> Option<Kind>
    requires ready { IsScene scene.now }
    ensures value { (scope : Scope) → result ≡ numbered_if_any (setting_of scene.now)
        (shape_step (names_of (setting_of scene.now) scope) (Expr-F.NewField field.now)) }
    ensures small { IfSome result IsSmallKind }
{
    let new = scene.written?;
    field_kind(scene, new.csr, field)
}

fn function_named<'a>(functions: &'a [Function], name: &Name) -> Option<&'a Function>
    ensures { option_copied result ≡ function_named functions.now name.now }
{
    for function in functions {
        if function.name == *name {
            return Some(function);
        }
    }
    None
}

fn call_kind(scene: &Scene, name: &Name) -> Option<Kind>
    requires ready { IsScene scene.now }
    ensures value { (scope : Scope) → result ≡ numbered_if_any (setting_of scene.now)
        (meant.call_kind (names_of (setting_of scene.now) scope) name.now) }
    ensures small { IfSome result IsSmallKind }
{
    let function = function_named(scene.program.functions.as_slice(), name)?;
    match &function.result {
        Some(shape) => Some(declared_kind(scene, shape)),
        None => None,
    }
}

// Both widths, where both are bits.
fn sides(x: Option<Kind>, y: Option<Kind>) -> Option<BothBits>
    requires left { IfSome x IsSmallKind }
    requires right { IfSome y IsSmallKind }
    ensures value { result ≡ by_number.sides_of x y }
    ensures small { IfSome result (λ p. IsClipped p.left × IsClipped p.right) }
{
    match x? {
        Kind::Bits { width, signed } => match y? {
            Kind::Bits {
                width: other,
                signed: also,
            } => Some(BothBits {
                left: width,
                right: other,
                signed: signed && also,
            }),
            _ => None,
        },
        _ => None,
    }
}

fn at_larger(x: Option<Kind>, y: Option<Kind>) -> Option<Kind>
    requires left { IfSome x IsSmallKind }
    requires right { IfSome y IsSmallKind }
    ensures value { result ≡ by_number.at_larger x y }
    ensures small { IfSome result IsSmallKind }
{
    let sides = sides(x, y)?;
    let width = larger(sides.left, sides.right);
    Some(Kind::Bits {
        width,
        signed: sides.signed,
    })
}

fn one_wider(x: Option<Kind>, y: Option<Kind>) -> Option<Kind>
    requires left { IfSome x IsSmallKind }
    requires right { IfSome y IsSmallKind }
    ensures value { result ≡ by_number.one_wider x y }
    ensures small { IfSome result IsSmallKind }
{
    let sides = sides(x, y)?;
    let width = sum(larger(sides.left, sides.right), 1);
    Some(Kind::Bits {
        width,
        signed: sides.signed,
    })
}

fn at_sum(x: Option<Kind>, y: Option<Kind>) -> Option<Kind>
    requires left { IfSome x IsSmallKind }
    requires right { IfSome y IsSmallKind }
    ensures value { result ≡ by_number.at_sum x y }
    ensures small { IfSome result IsSmallKind }
{
    let sides = sides(x, y)?;
    let width = sum(sides.left, sides.right);
    Some(Kind::Bits {
        width,
        signed: sides.signed,
    })
}

fn joined(x: Option<Kind>, y: Option<Kind>) -> Option<Kind>
    requires left { IfSome x IsSmallKind }
    requires right { IfSome y IsSmallKind }
    ensures value { result ≡ by_number.joined x y }
    ensures small { IfSome result IsSmallKind }
{
    let sides = sides(x, y)?;
    let width = sum(sides.left, sides.right);
    Some(Kind::Bits {
        width,
        signed: false,
    })
}

fn as_left(x: Option<Kind>, y: Option<Kind>) -> Option<Kind>
    requires left { IfSome x IsSmallKind }
    requires right { IfSome y IsSmallKind }
    ensures value { result ≡ by_number.as_left x y }
    ensures small { IfSome result IsSmallKind }
{
    sides(x, y)?;
    x
}

fn binary_kind(sign: Binary, x: Option<Kind>, y: Option<Kind>) -> Option<Kind>
    requires left { IfSome x IsSmallKind }
    requires right { IfSome y IsSmallKind }
    ensures value { result ≡ by_number.binary_kind sign x y }
    ensures small { IfSome result IsSmallKind }
{
    match sign {
        Binary::BitOr | Binary::BitXor | Binary::BitAnd => at_larger(x, y),
        Binary::Left | Binary::Right | Binary::RightSigned => as_left(x, y),
        Binary::Add | Binary::Sub | Binary::Mul => at_larger(x, y),
        Binary::Div | Binary::Rem => at_larger(x, y),
        Binary::WideAdd | Binary::WideSub => one_wider(x, y),
        Binary::WideMul => at_sum(x, y),
        Binary::Or | Binary::And => Some(Kind::Flag),
        Binary::Equal | Binary::NotEqual => Some(Kind::Flag),
        Binary::Below | Binary::AtMost => Some(Kind::Flag),
        Binary::Above | Binary::AtLeast => Some(Kind::Flag),
    }
}

fn with_sign(x: Option<Kind>, sign: bool) -> Option<Kind>
    requires { IfSome x IsSmallKind }
    ensures value { result ≡ by_number.with_sign x sign }
    ensures small { IfSome result IsSmallKind }
{
    match x? {
        Kind::Bits { width, signed: _ } => Some(Kind::Bits {
            width,
            signed: sign,
        }),
        _ => None,
    }
}

fn with_width(x: Option<Kind>, width: i64) -> Option<Kind>
    requires kind { IfSome x IsSmallKind }
    requires width { IsClipped width }
    ensures value { result ≡ by_number.with_width x width }
    ensures small { IfSome result IsSmallKind }
{
    match x? {
        Kind::Bits { width: _, signed } => Some(Kind::Bits { width, signed }),
        _ => None,
    }
}

fn wider(x: Option<Kind>, by: i64) -> Option<Kind>
    requires kind { IfSome x IsSmallKind }
    requires by { IsClipped by }
    ensures value { result ≡ by_number.wider x by }
    ensures small { IfSome result IsSmallKind }
{
    match x? {
        Kind::Bits { width, signed } => Some(Kind::Bits {
            width: sum(width, by),
            signed,
        }),
        _ => None,
    }
}

fn repeated(times: i64, x: Option<Kind>) -> Option<Kind>
    requires times { IsClipped times }
    requires kind { IfSome x IsSmallKind }
    ensures value { result ≡ by_number.repeated times x }
    ensures small { IfSome result IsSmallKind }
{
    match x? {
        Kind::Bits { width, signed: _ } => unsigned(product(times, width)),
        _ => None,
    }
}

fn unary_kind(sign: Unary, x: Option<Kind>) -> Option<Kind>
    requires { IfSome x IsSmallKind }
    ensures value { result ≡ by_number.unary_kind sign x }
    ensures small { IfSome result IsSmallKind }
{
    match sign {
        Unary::Not => Some(Kind::Flag),
        Unary::Invert | Unary::Minus => match x? {
            Kind::Bits { width, signed } => Some(Kind::Bits { width, signed }),
            _ => None,
        },
    }
}

fn is_flag(kind: Kind) -> bool
    ensures { result ≡ by_number.is_flag kind }
{
    match kind {
        Kind::Flag => true,
        _ => false,
    }
}

fn is_member(enumeration: EnumKind, kind: Kind) -> bool
    ensures { result ≡ by_number.is_member enumeration kind }
{
    match kind {
        Kind::Member(other) => same_enum(enumeration, other),
        _ => false,
    }
}

fn choice_kind(x: Option<Kind>, y: Option<Kind>) -> Option<Kind>
    requires left { IfSome x IsSmallKind }
    requires right { IfSome y IsSmallKind }
    ensures value { result ≡ by_number.choice_kind x y }
    ensures small { IfSome result IsSmallKind }
{
    match x? {
        Kind::Bits {
            width: _,
            signed: _,
        } => at_larger(x, y),
        Kind::Flag => {
            if is_flag(y?) {
                return Some(Kind::Flag);
            }
            None
        }
        Kind::Member(kind) => {
            if is_member(kind, y?) {
                return Some(Kind::Member(kind));
            }
            None
        }
        _ => None,
    }
}

#[cycle(kinds)]
fn join_kind(scene: &Scene, scope: &[Local], parts: &[Expr]) -> Option<Kind>
    requires ready { IsScene scene.now }
    ensures value { result ≡ numbered_if_any (setting_of scene.now)
        (meant.join_kind
        (map (shape (names_of (setting_of scene.now) (scope_of scope.now))) parts.now)) }
    ensures small { IfSome result IsSmallKind }
{
    if parts.is_empty() {
        return None;
    }
    let mut kind = with_sign(expression_kind(scene, scope, &parts[0]), false);
    let rest = &parts[1..];
    for part in rest {
        kind = joined(kind, expression_kind(scene, scope, part));
    }
    kind
}

// The kind of an expression, or none where its parts don't give it one.
#[cycle(kinds)]
fn expression_kind(scene: &Scene, scope: &[Local], expr: &Expr) -> Option<Kind>
    requires ready { IsScene scene.now }
    ensures value { result ≡ numbered_if_any (setting_of scene.now)
        (shape (names_of (setting_of scene.now) (scope_of scope.now)) expr.now) }
    ensures small { IfSome result IsSmallKind }
{
    match expr {
        Expr::Number(number) => Some(kind_holding(*number)),
        Expr::Sized {
            width,
            signed,
            value: _,
        } => Some(Kind::Bits {
            width: width_number(scene, width),
            signed: *signed,
        }),
        Expr::Text(_) => Some(Kind::WrittenText),
        Expr::Flag(_) => Some(Kind::Flag),
        Expr::Word(name) => word_kind(scene, scope, name),
        Expr::Member { kind, name: _ } => Some(Kind::Member(*kind)),
        Expr::Unary { sign, of } => unary_kind(*sign, expression_kind(scene, scope, of.get())),
        Expr::Binary { sign, left, right } => {
            let left = expression_kind(scene, scope, left.get());
            binary_kind(*sign, left, expression_kind(scene, scope, right.get()))
        }
        Expr::WideLeft { left, by } => {
            let left = expression_kind(scene, scope, left.get());
            wider(left, width_number(scene, by))
        }
        Expr::Choice { test: _, yes, no } => {
            let yes = expression_kind(scene, scope, yes.get());
            choice_kind(yes, expression_kind(scene, scope, no.get()))
        }
        Expr::Join(parts) => join_kind(scene, scope, parts.as_slice()),
        Expr::Repeat { times, of } => {
            let of = expression_kind(scene, scope, of.get());
            repeated(width_number(scene, times), of)
        }
        Expr::Index { of: _, at: _ } => unsigned(1),
        Expr::Slice { of: _, high, low } => {
            let run = difference(width_number(scene, high), width_number(scene, low));
            unsigned(sum(run, 1))
        }
        Expr::Call { name, args: _ } => call_kind(scene, name),
        Expr::Signed(of) => with_sign(expression_kind(scene, scope, of.get()), true),
        Expr::Resize { width, of } => {
            let of = expression_kind(scene, scope, of.get());
            with_width(of, width_number(scene, width))
        }
        Expr::Pc | Expr::Register(_) | Expr::SoftRead(_) => register_kind(scene),
        Expr::Encoding => unsigned(32),
        Expr::Field { csr, field } => field_kind(scene, csr, field),
        Expr::ReadMemory { bits, at: _ } => unsigned(i64::from(*bits)),
        Expr::NewField(field) => new_field_kind(scene, field),
        Expr::Mode => Some(Kind::Member(EnumKind::PrivilegeMode)),
        Expr::Implemented(_) => Some(Kind::Flag),
        Expr::ImplementedVersion {
            extension: _,
            text: _,
        } => Some(Kind::Flag),
    }
}

/// The same number at a width and a sign: extended by its own sign, or truncated.
#[tactic(auto, unfolding(idl_bits::specs::Operators::resized_to))]
pub fn brought_to(width: u8, signed: bool, bits: Bits) -> Bits
    requires positive { 1 ≤ width }
    requires limit { width ≤ 128 }
    ensures { result ≡ brought_to width signed bits }
{
    let resized = idl_bits::resize(bits, width);
    if signed {
        return idl_bits::as_signed(resized);
    }
    idl_bits::as_unsigned(resized)
}

// A truth value that stays as it is.
fn same_flag(value: Scalar) -> Result<Scalar, Stop>
    ensures { AnswersWith as_scalar (by_number.same_flag (as_scalar value)) result }
{
    match value {
        Scalar::Bits(_) => Err(Stop::Stuck),
        Scalar::Flag(flag) => Ok(Scalar::Flag(flag)),
        Scalar::Member { kind: _, number: _ } => Err(Stop::Stuck),
    }
}

// A member of an enumeration that stays as it is.
fn same_member(kind: EnumKind, value: Scalar) -> Result<Scalar, Stop>
    ensures { AnswersWith as_scalar (by_number.same_member kind (as_scalar value)) result }
{
    match value {
        Scalar::Bits(_) => Err(Stop::Stuck),
        Scalar::Flag(_) => Err(Stop::Stuck),
        Scalar::Member {
            kind: other,
            number,
        } => {
            if same_enum(kind, other) {
                return Ok(Scalar::Member {
                    kind: other,
                    number,
                });
            }
            Err(Stop::Stuck)
        }
    }
}

fn at_size(width: i64, signed: bool, value: Scalar) -> Result<Scalar, Stop>
    ensures { AnswersWith as_scalar (by_number.at_size width signed (as_scalar value)) result }
{
    match value {
        Scalar::Bits(bits) => {
            if width < 1 || 128 < width {
                return Err(Stop::Stuck);
            }
            Ok(Scalar::Bits(brought_to(width as u8, signed, bits)))
        }
        Scalar::Flag(_) => Err(Stop::Stuck),
        Scalar::Member { kind: _, number: _ } => Err(Stop::Stuck),
    }
}

// A value in a kind.
fn scalar_in_kind(kind: Option<Kind>, value: Scalar) -> Result<Scalar, Stop>
    ensures { AnswersWith as_scalar (by_number.value_in kind (as_scalar value)) result }
{
    match required(kind)? {
        Kind::Bits { width, signed } => at_size(width, signed, value),
        Kind::Flag => same_flag(value),
        Kind::Member(kind) => same_member(kind, value),
        _ => Err(Stop::Stuck),
    }
}

// A taken side of `? :` in the kind of both.
fn in_kind(kind: Option<Kind>, taken: Part) -> Part
    ensures { (e : Setting) (k : Option meant.Kind) → kind ≡ numbered_if_any e k
        → Maps as_value (λ o. and_then o (in_kind e k)) taken result }
{
    let value = scalar_in(taken)?;
    Ok(Value::Scalar(scalar_in_kind(kind, value)?))
}

/// A value in a declared shape.
pub fn scalar_in_shape(scene: &Scene, shape: &Shape, value: Scalar) -> Result<Scalar, Stop>
    requires ready { IsScene scene.now }
    ensures { Finds as_scalar (in_shape (setting_of scene.now) shape.now (as_scalar value)) result }
{
    match shape {
        Shape::Bits { signed, width } => at_size(width_number(scene, width), *signed, value),
        Shape::Boolean => same_flag(value),
        Shape::Enum(kind) => same_member(*kind, value),
    }
}

/// What a part gives, in a declared shape.
pub fn in_shape(scene: &Scene, shape: &Shape, value: Part) -> Result<Scalar, Stop>
    requires ready { IsScene scene.now }
    ensures { Maps as_scalar (λ o. and_then o (in_shape (setting_of scene.now) shape.now))
        value result }
{
    let value = scalar_in(value)?;
    scalar_in_shape(scene, shape, value)
}

/// A value in the shape of another.
pub fn in_shape_of(old: Scalar, value: Scalar) -> Result<Scalar, Stop>
    ensures { Finds as_scalar (required (in_shape_of (as_scalar old) (as_scalar value))) result }
{
    match old {
        Scalar::Bits(old) => at_size(i64::from(old.width()), old.signed(), value),
        Scalar::Flag(_) => same_flag(value),
        Scalar::Member { kind, number: _ } => same_member(kind, value),
    }
}

/// The taken side of a `? :` in the kind of both sides.
pub fn chosen(scene: &Scene, scope: &[Local], choice: &Expr, taken: Part) -> Part
    requires ready { IsScene scene.now }
    ensures { Maps as_value (λ o. and_then o
        (in_kind (setting_of scene.now)
        (shape (names_of (setting_of scene.now) (scope_of scope.now)) choice.now))) taken result }
{
    in_kind(expression_kind(scene, scope, choice), taken)
}
