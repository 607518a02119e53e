//! The values of expressions, and why an evaluation stops.

ghost use Rattle.std.specs.Prelude.{◌≡◌};
ghost use Rattle.idl_spec.specs.Values.{bits, flag};
ghost use Rattle.idl_spec.specs.Harts.{done, and_then};
ghost use Rattle.idl_spec.specs.Settings.{with_bits, with_flag};
ghost use Rattle.idl_forms.specs.States.{as_value, as_scalar, scalar_step, Finds, Maps, or_stop};
ghost use Rattle.idl_forms.specs.declared.values.Stop.TheVariants.{Memory};

use idl_bits::Bits;
use idl_tree::EnumKind;
use std::alloc::{AllocError, AllocFailed};
use udb_base::{Chars, Name};

/// Bits, a truth value, or a member of an enumeration by its number: what has a shape.
#[derive(Clone, Copy)]
pub enum Scalar {
    Bits(Bits),
    Flag(bool),
    Member { kind: EnumKind, number: u8 },
}

/// What has a shape, a text that a parameter gives, or a written text.
#[derive(Drop)]
pub enum Value {
    Scalar(Scalar),
    Given(Chars),
    Written(Chars),
}

/// A value with its name.
#[derive(Drop)]
pub struct Local {
    pub name: Name,
    pub value: Scalar,
}

/// Why an evaluation stops: want of memory, an exception, or a form that has no meaning here.
#[derive(Clone, Copy)]
pub enum Stop {
    Memory,
    Raised { code: u32, tval: u64 },
    Stuck,
}

impl From<AllocError> for Stop {
    ghost from_gives = { λ _ e. e ≡ Memory };

    fn from(_e: AllocError) -> Stop {
        Stop::Memory
    }
}

impl<T: Drop> From<AllocFailed<T>> for Stop {
    ghost from_gives = { λ _ e. e ≡ Memory };

    fn from(_e: AllocFailed<T>) -> Stop {
        Stop::Memory
    }
}

/// What a part gives.
pub type Part = Result<Value, Stop>;

/// Stuck where there is nothing.
pub fn required<T: Drop>(value: Option<T>) -> Result<T, Stop>
    ensures { result ≡ or_stop value }
{
    match value {
        Some(value) => Ok(value),
        None => Err(Stop::Stuck),
    }
}

/// Bits as a value.
pub fn of_bits(value: Bits) -> Value
    ensures { as_value result ≡ bits value }
{
    Value::Scalar(Scalar::Bits(value))
}

/// A truth value as a value.
pub fn of_flag(value: bool) -> Value
    ensures { as_value result ≡ flag value }
{
    Value::Scalar(Scalar::Flag(value))
}

/// A value that has to have a shape.
pub fn scalar_of(value: &Value) -> Result<Scalar, Stop>
    ensures { Finds as_scalar (scalar_step (as_value value.now)) result }
{
    match value {
        Value::Scalar(scalar) => Ok(*scalar),
        Value::Given(_) => Err(Stop::Stuck),
        Value::Written(_) => Err(Stop::Stuck),
    }
}

/// The same of what a part gives.
pub fn scalar_in(part: Part) -> Result<Scalar, Stop>
    ensures { Maps as_scalar (λ o. and_then o scalar_step) part result }
{
    match part? {
        Value::Scalar(scalar) => Ok(scalar),
        Value::Given(_) => Err(Stop::Stuck),
        Value::Written(_) => Err(Stop::Stuck),
    }
}

/// A value that has to be bits.
pub fn bits_in(part: Part) -> Result<Bits, Stop>
    ensures { Maps (λ b. b) (λ o. with_bits o done) part result }
{
    match scalar_in(part)? {
        Scalar::Bits(bits) => Ok(bits),
        Scalar::Flag(_) => Err(Stop::Stuck),
        Scalar::Member { kind: _, number: _ } => Err(Stop::Stuck),
    }
}

/// A value that has to be a truth value.
pub fn flag_in(part: Part) -> Result<bool, Stop>
    ensures { Maps (λ b. b) (λ o. with_flag o done) part result }
{
    match scalar_in(part)? {
        Scalar::Bits(_) => Err(Stop::Stuck),
        Scalar::Flag(flag) => Ok(flag),
        Scalar::Member { kind: _, number: _ } => Err(Stop::Stuck),
    }
}
