//! Bodies of fields, and what software writes to a CSR.

ghost use Rattle.std.specs.Prelude.{◌≡◌, ◌<◌, ◌^◌, Some, option_map, IfOk};
ghost use Rattle.idl_spec.specs.Fields.{part_width, present_field};
ghost use Rattle.idl_spec.specs.Programs as programs;
ghost use Rattle.idl_forms.specs.States.{state_of, AnswersWith, Returns};
ghost use Rattle.idl_forms.specs.Scenes.{setting_of, new_number, placed_of};
ghost use Rattle.idl_forms.specs.Ready.{IsScene, IsSoundAt, IsPart, IsPresentCsr, Keeps};
ghost use Rattle.idl_mean.specs.Flows.{Writes, with_fields};

use crate::depth::deeper;
use crate::statements::execute_all;
use idl_forms::fields::{Placed, bits_of, field_place};
use idl_forms::harts::HartState;
use idl_forms::memory::truncated;
use idl_forms::names::part_width;
use idl_forms::results::{brought_to_field, is_writable, type_of_value, unless_memory};
use idl_forms::scenes::{NewNumber, Scene};
use idl_forms::values::{Stop, Value};
use idl_tree::{Body, CsrBody, FieldKind, FieldType, ResetValue};
use std::alloc::Global;

/// What the body of a field returns. It runs on a copy of the state.
#[cycle(evaluation)]
fn field_result<'a>(
    alloc: Global,
    scene: &Scene<'a>,
    written: Option<NewNumber<'a>>,
    body: &Body,
    state: &HartState,
    depth: u32,
) -> Result<Option<Value>, Stop>
    requires ready { IsScene scene.now }
    requires sound { IsSoundAt scene.now (state_of state.now) }
    ensures { Returns (programs.field_result scene.now.space.now scene.now.full.now
        scene.now.program.now (option_map new_number written.entry) body.now (state_of state.now))
        result }
{
    let depth = deeper(depth)?;
    let quiet = scene.quiet(written);
    let mut copy = state.copy(alloc)?;
    let mut scope = Vec::new(alloc);
    let stmts = body.statements.as_slice();
    match execute_all(alloc, &quiet, &mut scope, &mut copy, stmts, depth) {
        Ok(returned) => Ok(returned),
        Err(stop) => unless_memory(stop),
    }
}

/// The type of a field.
#[cycle(evaluation)]
fn field_type(alloc: Global, scene: &Scene, placed: Placed, depth: u32) -> Result<FieldType, Stop>
    requires ready { IsScene scene.now }
    ensures { AnswersWith (λ t. t) (programs.field_type scene.now.space.now scene.now.full.now
        scene.now.program.now (placed_of placed.entry)) result }
{
    let depth = deeper(depth)?;
    match &placed.field.kind {
        FieldKind::Plain(kind) => Ok(*kind),
        FieldKind::Computed(body) => {
            let blank = HartState::blank(alloc)?;
            type_of_value(field_result(alloc, scene, None, body, &blank, depth)?)
        }
    }
}

// The number that a field takes: what its body returns, or its bits of the new number.
#[cycle(evaluation)]
fn written_number<'a>(
    alloc: Global,
    scene: &Scene<'a>,
    new: NewNumber<'a>,
    state: &HartState,
    placed: Placed<'a>,
    depth: u32,
) -> Result<u64, Stop>
    requires ready { IsScene scene.now }
    requires sound { IsSoundAt scene.now (state_of state.now) }
    requires part { IsPart placed.bits }
    ensures value { AnswersWith (λ n. n) (programs.written_number scene.now.space.now
        scene.now.full.now scene.now.program.now (new_number new.entry) (state_of state.now)
        (placed_of placed.entry) placed.entry.field.now.write) result }
    ensures small { IfOk result (λ n. n < 2 ^ part_width placed.entry.bits) }
{
    let depth = deeper(depth)?;
    match &placed.field.write {
        None => Ok(bits_of(new.number, placed.bits)),
        Some(body) => {
            let returned = field_result(alloc, scene, Some(new), body, state, depth)?;
            brought_to_field(placed, returned)
        }
    }
}

// Writes a field, where its type lets software write it; its body sees the state before the write.
#[cycle(evaluation)]
fn write_field<'a>(
    alloc: Global,
    scene: &Scene<'a>,
    new: NewNumber<'a>,
    before: &HartState,
    placed: Placed<'a>,
    state: &mut HartState,
    depth: u32,
) -> Result<(), Stop>
    requires ready { IsScene scene.now }
    requires before { IsSoundAt scene.now (state_of before.now) }
    requires sound { IsSoundAt scene.now (state_of state.old) }
    requires part { IsPart placed.bits }
    requires present { present_field scene.now.space.now scene.now.full.now scene.now.program.now
        new.csr.now placed.field.now.name ≡ Some (placed_of placed) }
    ensures value { Writes (with_fields (state_of state.old) (programs.write_field
        scene.now.space.now scene.now.full.now scene.now.program.now (new_number new.entry)
        (state_of before.now) (placed_of placed.entry) (state_of state.old).fields))
        result (state_of state.new) }
    ensures kept { Keeps scene.now (state_of state.old) (state_of state.new) }
{
    let depth = deeper(depth)?;
    if !is_writable(field_type(alloc, scene, placed, depth)?) {
        return Ok(());
    }
    let number = written_number(alloc, scene, new, before, placed, depth)?;
    state.fields.set(new.csr, &placed.field.name, number);
    Ok(())
}

/// Writes a number to a CSR: each present field of a writable type takes its part.
#[cycle(evaluation)]
pub fn write_csr<'a>(
    alloc: Global,
    scene: &Scene<'a>,
    state: &mut HartState,
    csr: &'a CsrBody,
    number: u64,
    depth: u32,
) -> Result<(), Stop>
    requires ready { IsScene scene.now }
    requires sound { IsSoundAt scene.now (state_of state.old) }
    requires known { IsPresentCsr scene.now csr.now }
    ensures value { Writes (programs.write_csr scene.now.space.now scene.now.full.now
        scene.now.program.now csr.now number (state_of state.old)) result (state_of state.new) }
    ensures kept { Keeps scene.now (state_of state.old) (state_of state.new) }
{
    let depth = deeper(depth)?;
    let before = state.copy(alloc)?;
    let new = NewNumber {
        csr: &csr.name,
        number,
    };
    for field in csr.fields.as_slice() {
        if let Some(placed) = field_place(scene, field) {
            write_field(alloc, scene, new, &before, placed, state, depth)?;
        }
    }
    Ok(())
}

/// The number that a field holds at reset: what its body returns, or the given number.
pub fn reset_number(alloc: Global, scene: &Scene, placed: Placed, depth: u32) -> Result<u64, Stop>
    requires ready { IsScene scene.now }
    requires part { IsPart placed.bits }
    ensures { AnswersWith (λ n. n) (programs.reset_number scene.now.space.now scene.now.full.now
        scene.now.program.now (placed_of placed.entry)) result }
{
    match &placed.field.reset {
        ResetValue::Plain(number) => Ok(truncated(part_width(placed.bits), *number)),
        ResetValue::Computed(body) => {
            let blank = HartState::blank(alloc)?;
            let returned = field_result(alloc, scene, None, body, &blank, depth)?;
            brought_to_field(placed, returned)
        }
    }
}
