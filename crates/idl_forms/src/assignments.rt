//! What assignments do with the value that is given.

ghost use Rattle.std.specs.Prelude.{◌≡◌, Some};
ghost use Rattle.idl_spec.specs.Fields.{present_field};
ghost use Rattle.idl_spec.specs.Settings.{Scope, goes_on};
ghost use Rattle.idl_spec.specs.Mean.{local_bits};
ghost use Rattle.idl_forms.specs.States.{or_stop, scope_of, state_of, going_on, Maps, Follows};
ghost use Rattle.idl_forms.specs.Scenes.{setting_of, placed_of};
ghost use Rattle.idl_forms.specs.Ready.{IsScene, IsSoundAt, IsPart, Keeps};
ghost use Rattle.idl_forms.specs.Steps.{set_word_step, set_bit_step, set_slice_step, set_field_step};

use crate::fields::Placed;
use crate::harts::HartState;
use crate::kinds::in_shape_of;
use crate::memory::extension;
use crate::names::{assign_local, local, part_width};
use crate::scenes::{Scene, slice_places};
use crate::values::{Local, Part, Scalar, Stop, bits_in, required, scalar_in};
use idl_bits::Bits;
use idl_tree::{Name, Width};

/// A local takes a value in its own shape.
pub fn set_word(scope: &mut [Local], name: &Name, value: Part) -> Result<(), Stop>
    ensures { Maps (going_on scope.new) (set_word_step (scope_of scope.old) name.now) value result }
{
    let value = scalar_in(value)?;
    let old = required(local(scope, name))?;
    let new = in_shape_of(old, value)?;
    assign_local(scope, name, new);
    Ok(())
}

// The bits of a local.
fn local_bits(scope: &[Local], name: &Name) -> Result<Bits, Stop>
    ensures { result ≡ or_stop (local_bits (scope_of scope.now) name.now) }
{
    match required(local(scope, name))? {
        Scalar::Bits(bits) => Ok(bits),
        Scalar::Flag(_) => Err(Stop::Stuck),
        Scalar::Member { kind: _, number: _ } => Err(Stop::Stuck),
    }
}

/// A local takes one bit.
pub fn set_bit(scope: &mut [Local], name: &Name, at: Bits, value: Part) -> Result<(), Stop>
    ensures { Maps (going_on scope.new) (set_bit_step (scope_of scope.old) name.now at)
        value result }
{
    let value = bits_in(value)?;
    let old = local_bits(scope, name)?;
    let new = idl_bits::put_bit(old, at, value);
    assign_local(scope, name, Scalar::Bits(new));
    Ok(())
}

/// A local takes the bits between two places.
pub fn set_slice(
    scene: &Scene,
    scope: &mut [Local],
    name: &Name,
    high: &Width,
    low: &Width,
    value: Part,
) -> Result<(), Stop>
    requires ready { IsScene scene.now }
    ensures { Maps (going_on scope.new) (set_slice_step (setting_of scene.now) (scope_of scope.old)
        name.now high.now low.now) value result }
{
    let value = bits_in(value)?;
    let old = local_bits(scope, name)?;
    let (high, low) = slice_places(scene, old.width(), high, low)?;
    let new = idl_bits::put_slice(old, high, low, value);
    assign_local(scope, name, Scalar::Bits(new));
    Ok(())
}

/// A field takes a value, brought to its bits.
pub fn set_field(
    scene: &Scene,
    state: &mut HartState,
    csr: &Name,
    field: &Name,
    placed: Placed,
    value: Part,
) -> Result<(), Stop>
    requires ready { IsScene scene.now }
    requires sound { IsSoundAt scene.now (state_of state.old) }
    requires part { IsPart placed.bits }
    requires present { present_field scene.now.space.now scene.now.full.now scene.now.program.now
        csr.now field.now ≡ Some (placed_of placed) }
    ensures value { (scope : Scope) → Follows (λ _. goes_on scope)
        (set_field_step scope csr.now field.now (placed_of placed.entry)) value (state_of state.old)
        result (state_of state.new) }
    ensures kept { Keeps scene.now (state_of state.old) (state_of state.new) }
{
    let number = extension(part_width(placed.bits), bits_in(value)?);
    state.fields.set(csr, field, number);
    Ok(())
}
