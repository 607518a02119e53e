//! The integer registers, the program counter and the memory.

ghost use Rattle.std.specs.Prelude.{◌≡◌, ◌≤◌, ◌<◌, ◌+◌, ◌*◌, ◌%◌, ◌^◌, length, IfOk};
ghost use Rattle.idl_bits.specs.Number.{extension};
ghost use Rattle.idl_spec.specs.Values.{bits, plain};
ghost use Rattle.idl_spec.specs.Harts.{done, loaded};
ghost use Rattle.idl_spec.specs.Settings.{Scope, goes_on, registers};
ghost use Rattle.idl_spec.specs.Forms.{address_of};
ghost use Rattle.idl_spec.specs.Mean.{raise};
ghost use Rattle.idl_forms.specs.States.{as_value, as_scalar, or_stop, state_of, Finds, Gives, Maps, Follows};
ghost use Rattle.idl_forms.specs.Scenes.{setting_of};
ghost use Rattle.idl_forms.specs.Ready.{IsScene, IsSoundAt, Keeps};
ghost use Rattle.idl_forms.specs.Accesses.{byte_count, place_of};
ghost use Rattle.idl_forms.specs.Steps.{register_step, set_register_step, jump_step, raise_step, read_memory_step, write_memory_step};

use crate::harts::{HartState, Ram};
use crate::scenes::Scene;
use crate::values::{Part, Scalar, Stop, Value, bits_in, of_bits};
use idl_bits::Bits;
use idl_tree::EnumKind;

/// A number modulo two to the power of a width.
pub fn truncated(width: u8, number: u64) -> u64
    requires positive { 1 ≤ width }
    requires limit { width ≤ 64 }
    ensures { result ≡ number % 2 ^ width }
{
    number & (u64::MAX >> (64 - width))
}

/// A value's pattern at a width of at most 64: extended by its own sign, or truncated.
pub fn extension(width: u8, bits: Bits) -> u64
    requires positive { 1 ≤ width }
    requires limit { width ≤ 64 }
    ensures value { result ≡ extension width bits }
    ensures small { result < 2 ^ width }
{
    idl_bits::resize(bits, width).pattern() as u64
}

/// A value in as many bits as a register has.
pub fn address_of(scene: &Scene, bits: Bits) -> u64
    requires ready { IsScene scene.now }
    ensures value { result ≡ address_of (setting_of scene.now) bits }
    ensures small { result < 2 ^ scene.now.registers }
{
    extension(scene.registers, bits)
}

/// The program counter.
pub fn pc(scene: &Scene, state: &HartState) -> Part
    requires ready { IsScene scene.now }
    requires sound { IsSoundAt scene.now (state_of state.now) }
    ensures { Gives (done (bits (plain (registers (setting_of scene.now)) state.now.pc))
        (state_of state.now)) result (state_of state.now) }
{
    let pattern = u128::from(state.pc);
    Ok(of_bits(Bits::new(scene.registers, false, pattern)))
}

/// The word that runs.
pub fn encoding(state: &HartState) -> Part
    ensures { Gives (done (bits (plain 32 state.now.word)) (state_of state.now))
        result (state_of state.now) }
{
    Ok(of_bits(Bits::new(32, false, u128::from(state.word))))
}

/// An integer register; from 32 on they read 0.
pub fn register(scene: &Scene, state: &HartState, at: Part) -> Part
    requires ready { IsScene scene.now }
    requires sound { IsSoundAt scene.now (state_of state.now) }
    ensures { Follows as_value (register_step (setting_of scene.now)) at (state_of state.now)
        result (state_of state.now) }
{
    let at = bits_in(at)?.pattern();
    let number = if at < 32 {
        state.x.as_slice()[at as usize]
    } else {
        0
    };
    let pattern = u128::from(number);
    Ok(of_bits(Bits::new(scene.registers, false, pattern)))
}

/// Writes an integer register; the first and those from 32 on take nothing.
pub fn set_register(scene: &Scene, state: &mut HartState, at: Bits, value: Part) -> Result<(), Stop>
    requires ready { IsScene scene.now }
    requires sound { IsSoundAt scene.now (state_of state.old) }
    ensures value { (scope : Scope) → Follows (λ _. goes_on scope)
        (set_register_step (setting_of scene.now) scope at) value (state_of state.old)
        result (state_of state.new) }
    ensures kept { Keeps scene.now (state_of state.old) (state_of state.new) }
{
    let number = address_of(scene, bits_in(value)?);
    if at.pattern() < 32 {
        state.x.set(at.pattern() as u8, number);
    }
    Ok(())
}

/// The next pc, or an exception where the address isn't aligned.
pub fn jump(scene: &Scene, state: &mut HartState, to: Part) -> Result<(), Stop>
    requires ready { IsScene scene.now }
    requires sound { IsSoundAt scene.now (state_of state.old) }
    ensures value { (scope : Scope) → Follows (λ _. goes_on scope)
        (jump_step (setting_of scene.now) scope) to (state_of state.old)
        result (state_of state.new) }
    ensures kept { Keeps scene.now (state_of state.old) (state_of state.new) }
{
    let to = address_of(scene, bits_in(to)?);
    if to % 4 != 0 {
        return Err(Stop::Raised { code: 0, tval: to });
    }
    state.next = to;
    Ok(())
}

// Raises the exception that a member of the enumeration names.
fn raise_member(code: Scalar, tval: u64) -> Result<(), Stop>
    ensures { (scope : Scope) → Finds (λ _. goes_on scope) (raise (as_scalar code) tval) result }
{
    match code {
        Scalar::Bits(_) => Err(Stop::Stuck),
        Scalar::Flag(_) => Err(Stop::Stuck),
        Scalar::Member { kind, number } => match kind {
            EnumKind::ExceptionCode => Err(Stop::Raised {
                code: u32::from(number),
                tval,
            }),
            EnumKind::PrivilegeMode => Err(Stop::Stuck),
            EnumKind::CsrFieldType => Err(Stop::Stuck),
        },
    }
}

/// Raises an exception in the machine mode.
pub fn raise(scene: &Scene, code: &Value, tval: Part) -> Result<(), Stop>
    requires ready { IsScene scene.now }
    ensures { (scope : Scope) → Maps (λ _. goes_on scope)
        (raise_step (setting_of scene.now) (as_value code.now)) tval result }
{
    let tval = address_of(scene, bits_in(tval)?);
    match code {
        Value::Scalar(scalar) => raise_member(*scalar, tval),
        Value::Given(_) => Err(Stop::Stuck),
        Value::Written(_) => Err(Stop::Stuck),
    }
}

// How many bytes an access has.
fn byte_count(bits: u8) -> Result<usize, Stop>
    ensures value { result ≡ or_stop (byte_count bits) }
    ensures whole { IfOk result (λ n. bits ≡ 8 * n) }
    ensures bounds { IfOk result (λ n. (1 ≤ n) × (n ≤ 8)) }
{
    match bits {
        8 => Ok(1),
        16 => Ok(2),
        32 => Ok(4),
        64 => Ok(8),
        _ => Err(Stop::Stuck),
    }
}

// The place of an access of so many bytes: an address that isn't aligned raises the code, one
// outside the memory the next code.
fn accessed(code: u32, at: u64, count: usize, ram: &Ram) -> Result<usize, Stop>
    requires positive { 1 ≤ count }
    requires few { count ≤ 8 }
    requires small { code < 8 }
    ensures value { result ≡ place_of code at count ram.now }
    ensures within { IfOk result (λ place. place + count ≤ length ram.now) }
    ensures room { IfOk result (λ place. place + count ≤ 65536) }
{
    if at % count as u64 != 0 {
        return Err(Stop::Raised { code, tval: at });
    }
    let length = ram.as_slice().len() as u64;
    if length < count as u64 || length - (count as u64) < at {
        return Err(Stop::Raised {
            code: code + 1,
            tval: at,
        });
    }
    Ok(at as usize)
}

// So many bytes of the memory, the lowest first.
fn loaded(ram: &[u8], at: usize, count: usize) -> u64
    requires within { at + count ≤ length ram.now }
    requires few { count ≤ 8 }
    ensures value { result ≡ loaded ram.now at count }
    ensures small { result < 2 ^ (8 * count) }
{
    let mut number: u64 = 0;
    for place in (at..at + count).rev() {
        number = (number << 8) | u64::from(ram[place]);
    }
    number
}

/// So many bits from an address.
pub fn read_memory(scene: &Scene, state: &HartState, bits: u8, at: Part) -> Part
    requires ready { IsScene scene.now }
    ensures { Follows as_value (read_memory_step (setting_of scene.now) bits) at
        (state_of state.now) result (state_of state.now) }
{
    let at = address_of(scene, bits_in(at)?);
    let count = byte_count(bits)?;
    let place = accessed(4, at, count, &state.ram)?;
    let pattern = u128::from(loaded(state.ram.as_slice(), place, count));
    Ok(of_bits(Bits::new(bits, false, pattern)))
}

/// Writes so many bits of a value at an address.
pub fn write_memory(
    scene: &Scene,
    state: &mut HartState,
    bits: u8,
    at: Bits,
    value: Part,
) -> Result<(), Stop>
    requires ready { IsScene scene.now }
    requires sound { IsSoundAt scene.now (state_of state.old) }
    ensures value { (scope : Scope) → Follows (λ _. goes_on scope)
        (write_memory_step (setting_of scene.now) bits scope at) value (state_of state.old)
        result (state_of state.new) }
    ensures kept { Keeps scene.now (state_of state.old) (state_of state.new) }
{
    let value = bits_in(value)?;
    let at = address_of(scene, at);
    let count = byte_count(bits)?;
    let place = accessed(6, at, count, &state.ram)?;
    state.ram.store(place, count, extension(bits, value));
    Ok(())
}
