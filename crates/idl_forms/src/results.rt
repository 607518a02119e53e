//! What calls and bodies of fields take and return.

ghost use Rattle.std.specs.Prelude.{◌≡◌, ◌<◌, ◌^◌, [], map, slice_get, Option, Err, IfOk, option_and_then};
ghost use Rattle.idl_spec.specs.Programs as bodies;
ghost use Rattle.idl_spec.specs.Values as meant;
ghost use Rattle.idl_spec.specs.Harts.{State, Outcome};
ghost use Rattle.idl_spec.specs.Fields.{part_width};
ghost use Rattle.idl_spec.specs.Programs.{value_of, brought_to_field, field_types, type_of_member, is_writable};
ghost use Rattle.idl_forms.specs.States.{as_value, as_scalar, scope_of, value_if_any, Ends, Finds, Returns, or_stop};
ghost use Rattle.idl_forms.specs.Scenes.{setting_of, placed_of};
ghost use Rattle.idl_forms.specs.Ready.{IsScene, IsPart};

use crate::fields::Placed;
use crate::kinds::{in_shape, scalar_in_shape};
use crate::memory::extension;
use crate::names::{declare, part_width};
use crate::operators::bits_of;
use crate::scenes::Scene;
use crate::values::{Local, Scalar, Stop, Value, required, scalar_of};
use idl_tree::{Argument, EnumKind, FieldType, Shape};
use std::alloc::Global;

/// The arguments of a function by their names, each in its declared shape.
pub fn arguments(
    alloc: Global,
    scene: &Scene,
    declared: &[Argument],
    values: &[Value],
) -> Result<Vec<Local>, Stop>
    requires ready { IsScene scene.now }
    ensures { Finds (λ v. scope_of v.items) (bodies.arguments (setting_of scene.now) declared.now
        (map as_value values.now) []) result }
{
    let mut scope = Vec::new(alloc);
    for (place, argument) in declared.iter().enumerate() {
        if values.len() <= place {
            return Err(Stop::Stuck);
        }
        let value = scalar_of(&values[place])?;
        let value = scalar_in_shape(scene, &argument.shape, value)?;
        declare(alloc, &mut scope, &argument.name, value)?;
    }
    if declared.len() < values.len() {
        return Err(Stop::Stuck);
    }
    Ok(scope)
}

/// What a function returns: a value in its declared shape exactly where it has a result.
pub fn result(
    scene: &Scene,
    shape: &Option<Shape>,
    returned: Option<Value>,
) -> Result<Option<Value>, Stop>
    requires ready { IsScene scene.now }
    ensures { Finds value_if_any
        (bodies.result (setting_of scene.now) shape.now (value_if_any returned)) result }
{
    match shape {
        None => match returned {
            None => Ok(None),
            Some(_) => Err(Stop::Stuck),
        },
        Some(shape) => {
            let value = in_shape(scene, shape, required(returned))?;
            Ok(Some(Value::Scalar(value)))
        }
    }
}

/// Nothing where a body of a field raises or is stuck.
pub fn unless_memory(stop: Stop) -> Result<Option<Value>, Stop>
    ensures { (o : Outcome (Option meant.Value)) (s : State) → Ends value_if_any o (Err stop) s
        → Returns (value_of o) result }
{
    match stop {
        Stop::Memory => Err(Stop::Memory),
        Stop::Raised { code: _, tval: _ } => Ok(None),
        Stop::Stuck => Ok(None),
    }
}

/// A value brought to a field: extended by its own sign, or truncated.
pub fn brought_to_field(placed: Placed, value: Option<Value>) -> Result<u64, Stop>
    requires part { IsPart placed.bits }
    ensures value { result ≡ or_stop
        (option_and_then (brought_to_field (placed_of placed.entry)) (value_if_any value)) }
    ensures small { IfOk result (λ n. n < 2 ^ part_width placed.entry.bits) }
{
    let value = required(value)?;
    let bits = required(bits_of(&value))?;
    Ok(extension(part_width(placed.bits), bits))
}

fn type_of_number(number: u8) -> Option<FieldType>
    ensures { result ≡ slice_get field_types number }
{
    match number {
        0 => Some(FieldType::RO),
        1 => Some(FieldType::ROH),
        2 => Some(FieldType::RW),
        3 => Some(FieldType::RWR),
        4 => Some(FieldType::RWH),
        5 => Some(FieldType::RWRH),
        _ => None,
    }
}

fn type_of_scalar(value: Scalar) -> Result<FieldType, Stop>
    ensures { result ≡ or_stop (type_of_member (as_scalar value)) }
{
    match value {
        Scalar::Bits(_) => Err(Stop::Stuck),
        Scalar::Flag(_) => Err(Stop::Stuck),
        Scalar::Member { kind, number } => match kind {
            EnumKind::CsrFieldType => required(type_of_number(number)),
            EnumKind::PrivilegeMode => Err(Stop::Stuck),
            EnumKind::ExceptionCode => Err(Stop::Stuck),
        },
    }
}

/// The type of a field that a value of its body names.
pub fn type_of_value(value: Option<Value>) -> Result<FieldType, Stop>
    ensures { result ≡ or_stop (option_and_then type_of_member (value_if_any value)) }
{
    match required(value)? {
        Value::Scalar(scalar) => type_of_scalar(scalar),
        Value::Given(_) => Err(Stop::Stuck),
        Value::Written(_) => Err(Stop::Stuck),
    }
}

/// Whether software changes a field of a type.
pub fn is_writable(kind: FieldType) -> bool
    ensures { result ≡ is_writable kind }
{
    match kind {
        FieldType::RO => false,
        FieldType::ROH => false,
        FieldType::RW => true,
        FieldType::RWR => true,
        FieldType::RWH => true,
        FieldType::RWRH => true,
    }
}
