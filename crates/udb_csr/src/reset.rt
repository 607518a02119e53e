//! The state at reset.

ghost use Rattle.std.specs.Prelude.{◌≡◌, ◌<◌, ◌++◌, ◌∷◌, [], Some, All, IfOk, OnOk, filter_map, flat_map, map, slice_get};
ghost use Rattle.udb_spec.specs.Lawful.{Lawful};
ghost use Rattle.udb_spec.specs.Spaces.{Valid};
ghost use Rattle.idl_spec.specs.Fields.{layout};
ghost use Rattle.idl_spec.specs.Programs.{IsState, reset_field, reset_state};
ghost use Rattle.idl_forms.specs.Ready.{IsLawfulProgram};
ghost use Rattle.idl_forms.specs.States.{field_of, state_of};
ghost use Rattle.idl_mean.specs.Evaluators.{reset_at};
ghost use Rattle.udb_csr.specs.Resets.{HaveNumbers, one_value, values_at};

use idl_forms::harts::{FieldValue, FieldValues, HartState, Ram, Registers};
use idl_forms::values::Stop;
use idl_mean::Evaluator;
use idl_tree::{CsrBody, Program};
use std::alloc::{AllocError, Global};
use udb_base::{Copied, Full, Name, NoMemory, Space, both};

fn number_of(place: usize) -> Result<u32, NoMemory>
    ensures { IfOk result (λ n. n ≡ place) }
{
    match u32::try_from(place) {
        Ok(number) => Ok(number),
        Err(_) => Err(AllocError),
    }
}

// The number at reset of the field at these places, where it is present and has one.
fn number_at(
    alloc: Global,
    evaluator: &Evaluator,
    full: &Full,
    csr: usize,
    field: usize,
) -> Result<Option<u64>, NoMemory>
    requires valid { Valid evaluator.now.space full.now }
    ensures { IfOk result (λ n. n ≡ reset_at evaluator.now.space full.now evaluator.now.program
        csr field) }
{
    let csr = number_of(csr)?;
    let field = number_of(field)?;
    match evaluator.attempt_reset(alloc, csr, field, full) {
        Ok(number) => Ok(Some(number)),
        Err(stop) => match stop {
            Stop::Memory => Err(AllocError),
            Stop::Raised { .. } => unreachable!(),
            Stop::Stuck => Ok(None),
        },
    }
}

fn push_value(
    alloc: Global,
    csr: &Name,
    field: &Name,
    number: Option<u64>,
    values: &mut FieldValues,
) -> Result<(), NoMemory>
    ensures { OnOk result (map field_of values.new
        ≡ map field_of values.old ++ one_value csr.now field.now number) }
{
    let Some(number) = number else {
        return Ok(());
    };
    let (csr, field) = both(csr.copy(alloc), field.copy(alloc))?;
    values.push(FieldValue { csr, field, number })
}

// The fields of the CSR at a place with their numbers.
fn push_fields(
    alloc: Global,
    evaluator: &Evaluator,
    full: &Full,
    place: usize,
    csr: &CsrBody,
    values: &mut FieldValues,
) -> Result<(), NoMemory>
    requires valid { Valid evaluator.now.space full.now }
    requires csr { slice_get evaluator.now.program.csrs place ≡ Some csr.now }
    ensures { OnOk result (map field_of values.new ≡ map field_of values.old
        ++ flat_map (values_at evaluator.now.space full.now evaluator.now.program csr.now)
        csr.now.fields) }
{
    for (at, field) in csr.fields.as_slice().iter().enumerate() {
        let number = number_at(alloc, evaluator, full, place, at)?;
        push_value(alloc, &csr.name, &field.name, number, values)?;
    }
    Ok(())
}

fn all_values(
    alloc: Global,
    evaluator: &Evaluator,
    full: &Full,
    csrs: &[CsrBody],
) -> Result<FieldValues, NoMemory>
    requires valid { Valid evaluator.now.space full.now }
    requires csrs { csrs.now ≡ evaluator.now.program.csrs }
    ensures { IfOk result (λ values. map field_of values
        ≡ flat_map (λ c. filter_map (reset_field evaluator.now.space full.now
        evaluator.now.program c.name) (layout evaluator.now.space full.now c)) csrs.now) }
{
    let mut values = FieldValues::new(alloc);
    for (place, csr) in csrs.iter().enumerate() {
        push_fields(alloc, evaluator, full, place, csr, &mut values)?;
    }
    Ok(values)
}

// The present fields of a program with their numbers.
fn fields_at_reset(
    alloc: Global,
    space: &Space,
    program: &Program,
    full: &Full,
) -> Result<FieldValues, NoMemory>
    requires lawful { Lawful space.now }
    requires program { IsLawfulProgram program.now }
    requires valid { Valid space.now full.now }
    ensures { IfOk result (λ values. map field_of values
        ≡ flat_map (λ c. filter_map (reset_field space.now full.now program.now c.name)
        (layout space.now full.now c)) program.now.csrs) }
{
    let evaluator = Evaluator::new(alloc, space, program, &[])?;
    all_values(alloc, &evaluator, full, program.csrs.as_slice())
}

// What the types of numbers say of them.
fn of_8_bits(bytes: &[u8]) -> usize
    ensures { All (λ b. b < 256) bytes.now }
{
    bytes.len()
}

/// The state of a hart at reset with a memory: the registers, both program counters and the word
/// are 0, and each present field has its number at reset, brought to its bits. A field whose body
/// gives none is left out; of bodies that fit none is. The one refusal is want of memory. (RISC-V
/// privileged manual, "Reset".)
pub fn reset_state(
    alloc: Global,
    space: &Space,
    program: &Program,
    full: &Full,
    ram: Ram,
) -> Result<HartState, NoMemory>
    requires lawful { Lawful space.now }
    requires program { IsLawfulProgram program.now }
    requires valid { Valid space.now full.now }
    ensures state { IfOk result
        (λ s. state_of s ≡ reset_state space.now full.now program.now ram) }
    ensures kept { IfOk result (λ s. HaveNumbers space.now full.now program.now
        → IsState space.now full.now program.now (state_of s)) }
{
    let fields = fields_at_reset(alloc, space, program, full)?;
    let _ = of_8_bits(ram.as_slice());
    Ok(HartState {
        x: Registers::new(),
        pc: 0,
        next: 0,
        word: 0,
        fields,
        ram,
    })
}
