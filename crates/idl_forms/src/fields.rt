//! The CSRs and their fields.

ghost use Rattle.std.specs.Prelude.{◌≡◌, ◌<◌, ◌*◌, ◌^◌, ◌%◌, ◌≤◌, All, Err, Some, IfOk, IfSome, filter_map, find, map, option_map, sum_by};
ghost use Rattle.std.specs.Option.{option_copied};
ghost use Rattle.idl_tree.specs.declared.programs.BitPart.{BitPart};
ghost use Rattle.idl_spec.specs.Harts.{Outcome, is_field, field_number, and_then, required};
ghost use Rattle.idl_spec.specs.Fields.{placed, place_for, placed_named, present_field, read_csr, csr_named, field_named, part_width, bits_at};
ghost use Rattle.idl_spec.specs.Forms as found;
ghost use Rattle.idl_spec.specs.Forms.{field_value, new_field, csr_of_name, csr_word, soft_read, is_present_csr};
ghost use Rattle.idl_forms.specs.States.{state_of, scope_of, field_of, AnswersWith, Ends, Gives, Finds, Maps};
ghost use Rattle.idl_forms.specs.States as states;
ghost use Rattle.idl_forms.specs.declared.values.Stop.TheVariants as stop;
ghost use Rattle.idl_forms.specs.Scenes.{setting_of, placed_of, addressed_of};
ghost use Rattle.idl_forms.specs.Ready.{IsScene, IsSoundAt, IsPart, ArePlaces, IsPresentCsr};
ghost use Rattle.idl_forms.specs.FieldSums.{number_at, one_placed, is_at};
ghost use Rattle.idl_forms.specs.Steps.{word_step, csr_at_step, writable_step};

use crate::harts::{FieldValue, HartState};
use crate::memory::truncated;
use crate::names::{is_local, part_width};
use crate::scenes::Scene;
use crate::values::{Local, Part, Stop, bits_in, of_bits, required};
use idl_bits::Bits;
use idl_tree::{BitPart, CsrBody, Expr, FieldBodies, FieldPlaces};
use udb_base::Name;
use udb_cond::holds;

/// A field that is present, with its bits.
#[derive(Clone, Copy)]
pub struct Placed<'a> {
    pub field: &'a FieldBodies,
    pub bits: BitPart,
}

/// An address with the present CSR that has it.
#[derive(Clone, Copy)]
pub struct Addressed<'a> {
    pub address: u16,
    pub csr: Option<&'a CsrBody>,
}

/// The first CSR of a name.
pub fn csr_named<'a>(scene: &Scene<'a>, name: &Name) -> Option<&'a CsrBody>
    ensures value { option_copied result ≡ csr_named scene.now.program.now.csrs name.now }
{
    for csr in scene.program.csrs.as_slice() {
        if csr.name == *name {
            return Some(csr);
        }
    }
    None
}

/// The first field of a name.
pub fn field_named<'a>(fields: &'a [FieldBodies], name: &Name) -> Option<&'a FieldBodies>
    ensures { option_copied result ≡ field_named fields.now name.now }
{
    for field in fields {
        if field.name == *name {
            return Some(field);
        }
    }
    None
}

/// The bits of a field for a width of the registers, where it has a place there.
pub fn place_for(registers: u8, places: &FieldPlaces) -> Option<BitPart>
    ensures { result ≡ place_for registers places.now }
{
    match places {
        FieldPlaces::All(part) => Some(*part),
        FieldPlaces::ByBase { rv32, rv64 } => {
            if registers == 64 {
                return *rv64;
            }
            *rv32
        }
    }
}

/// A field with its bits, where it is present.
pub fn field_place<'a>(scene: &Scene<'a>, field: &'a FieldBodies) -> Option<Placed<'a>>
    requires ready { IsScene scene.now }
    ensures { option_map placed_of result
        ≡ placed scene.now.space.now scene.now.full.now field.now }
{
    if !holds(scene.space, &field.present, scene.full) {
        return None;
    }
    let bits = place_for(scene.registers, &field.places)?;
    Some(Placed { field, bits })
}

fn is_present_csr(scene: &Scene, csr: &CsrBody) -> bool
    ensures { result ≡ is_present_csr (setting_of scene.now) csr.now }
{
    holds(scene.space, &csr.present, scene.full)
}

// The present field of a name.
fn placed_named<'a>(scene: &Scene<'a>, fields: &'a [FieldBodies], name: &Name) -> Option<Placed<'a>>
    requires ready { IsScene scene.now }
    requires places { All (λ f. ArePlaces f.places) fields.now }
    ensures value { option_map placed_of result
        ≡ placed_named (filter_map (placed scene.now.space.now scene.now.full.now) fields.now)
        name.now }
    ensures part { IfSome result (λ p. IsPart p.bits) }
{
    for field in fields {
        if let Some(placed) = field_place(scene, field) {
            if field.name == *name {
                return Some(placed);
            }
        }
    }
    None
}

// The present field of a CSR's and a field's name.
fn present_field<'a>(scene: &Scene<'a>, csr: &Name, field: &Name) -> Option<Placed<'a>>
    requires ready { IsScene scene.now }
    ensures value { option_map placed_of result ≡ present_field scene.now.space.now
        scene.now.full.now scene.now.program.now csr.now field.now }
    ensures part { IfSome result (λ p. IsPart p.bits) }
{
    let csr = csr_named(scene, csr)?;
    if !is_present_csr(scene, csr) {
        return None;
    }
    placed_named(scene, csr.fields.as_slice(), field)
}

fn is_field(value: &FieldValue, csr: &Name, field: &Name) -> bool
    ensures { result ≡ is_field csr.now field.now (field_of value.now) }
{
    value.csr == *csr && value.field == *field
}

// The number of a field.
#[tactic(auto, using(crate::proofs::FieldPlaces::number_steps))]
fn field_number(fields: &[FieldValue], csr: &Name, field: &Name) -> Option<u64>
    ensures { result ≡ field_number (map field_of fields.now) csr.now field.now }
{
    for value in fields {
        if is_field(value, csr, field) {
            return Some(value.number);
        }
    }
    None
}

/// The value of a field that has to be present.
pub fn field_value(scene: &Scene, state: &HartState, csr: &Name, field: &Name) -> Part
    requires ready { IsScene scene.now }
    requires sound { IsSoundAt scene.now (state_of state.now) }
    ensures { Gives (field_value (setting_of scene.now) csr.now field.now (state_of state.now))
        result (state_of state.now) }
{
    let placed = required(present_field(scene, csr, field))?;
    let number = required(field_number(state.fields.as_slice(), csr, field))?;
    let width = part_width(placed.bits);
    Ok(of_bits(Bits::new(width, false, u128::from(number))))
}

/// A field's bits of a CSR's number.
pub fn bits_of(number: u64, part: BitPart) -> u64
    requires part { IsPart part }
    ensures value { result ≡ bits_at number part }
    ensures small { result < 2 ^ part_width part }
{
    if part.low >= 64 {
        return 0;
    }
    truncated(part_width(part), number >> part.low)
}

/// A field of the number that software writes.
pub fn new_field(scene: &Scene, field: &Name) -> Part
    requires ready { IsScene scene.now }
    ensures { Finds states.as_value (new_field (setting_of scene.now) field.now) result }
{
    let new = required(scene.written)?;
    let placed = required(present_field(scene, new.csr, field))?;
    let width = part_width(placed.bits);
    let pattern = u128::from(bits_of(new.number, placed.bits));
    Ok(of_bits(Bits::new(width, false, pattern)))
}

fn is_at(scene: &Scene, csr: &CsrBody, address: u16) -> bool
    ensures { result ≡ is_at (setting_of scene.now) address csr.now }
{
    csr.address == address && is_present_csr(scene, csr)
}

// The present CSR of an address.
fn present_csr<'a>(scene: &Scene<'a>, address: u16) -> Option<&'a CsrBody>
    ensures value { option_copied result
        ≡ find (is_at (setting_of scene.now) address) scene.now.program.now.csrs }
    ensures known { IfSome result (λ c. IsPresentCsr scene.now c.now) }
{
    for csr in scene.program.csrs.as_slice() {
        if is_at(scene, csr, address) {
            return Some(csr);
        }
    }
    None
}

/// The present CSR of an address, of which the lowest 12 bits count.
pub fn csr_at<'a>(scene: &Scene<'a>, at: Part) -> Result<Addressed<'a>, Stop>
    requires ready { IsScene scene.now }
    ensures value { Maps addressed_of (csr_at_step (setting_of scene.now)) at result }
    ensures known { IfOk result (λ a. IfSome a.csr (λ c. IsPresentCsr scene.now c.now)) }
{
    let address = (bits_in(at)?.pattern() % 4096) as u16;
    let csr = present_csr(scene, address);
    Ok(Addressed { address, csr })
}

// The CSR of a name, which has to be present.
fn csr_of_name<'a>(scene: &Scene<'a>, name: &Name) -> Result<Addressed<'a>, Stop>
    requires ready { IsScene scene.now }
    ensures value { Finds addressed_of
        (λ s. required (csr_of_name (setting_of scene.now) name.now) s) result }
    ensures known { IfOk result (λ a. IfSome a.csr (λ c. IsPresentCsr scene.now c.now)) }
{
    let csr = required(csr_named(scene, name))?;
    if !is_present_csr(scene, csr) {
        return Err(Stop::Stuck);
    }
    Ok(Addressed {
        address: csr.address,
        csr: Some(csr),
    })
}

/// The present field of a CSR's and a field's name, which has to be one.
pub fn named_field<'a>(scene: &Scene<'a>, csr: &Name, field: &Name) -> Result<Placed<'a>, Stop>
    requires ready { IsScene scene.now }
    ensures value { AnswersWith placed_of (present_field scene.now.space.now scene.now.full.now
        scene.now.program.now csr.now field.now) result }
    ensures part { IfOk result (λ p. IsPart p.bits) }
{
    required(present_field(scene, csr, field))
}

// The CSR of a name, where there is a name.
fn csr_of_some<'a>(scene: &Scene<'a>, name: &Name) -> Result<Option<Addressed<'a>>, Stop>
    requires ready { IsScene scene.now }
    ensures value { Finds (option_map addressed_of)
        (word_step (setting_of scene.now) (Some name.now)) result }
    ensures known { IfOk result (λ o. IfSome o
        (λ a. IfSome a.csr (λ c. IsPresentCsr scene.now c.now))) }
{
    Ok(Some(csr_of_name(scene, name)?))
}

/// The CSR that an expression names, where it is a word that no local has.
pub fn csr_of_word<'a>(
    scene: &Scene<'a>,
    scope: &[Local],
    address: &Expr,
) -> Result<Option<Addressed<'a>>, Stop>
    requires ready { IsScene scene.now }
    ensures value { Finds (option_map addressed_of)
        (word_step (setting_of scene.now)
        (csr_word (setting_of scene.now) (scope_of scope.now) address.now)) result }
    ensures known { IfOk result (λ o. IfSome o
        (λ a. IfSome a.csr (λ c. IsPresentCsr scene.now c.now))) }
{
    match csr_word(scene, scope, address) {
        Some(name) => csr_of_some(scene, name),
        None => Ok(None),
    }
}

// The word of a CSR, where the expression is one and no local has its name.
fn csr_word<'a>(scene: &Scene, scope: &[Local], address: &'a Expr) -> Option<&'a Name>
    ensures { option_map (λ n. n.now) result
        ≡ csr_word (setting_of scene.now) (scope_of scope.now) address.now }
{
    match address {
        Expr::Word(name) => {
            if is_local(scene, scope, name) {
                return None;
            }
            Some(name)
        }
        _ => None,
    }
}

// A field's number at its place, modulo two to the power of 64.
fn at_place(number: u64, low: u16) -> u64
    ensures { result ≡ number * 2 ^ low % 2 ^ 64 }
{
    if low >= 64 {
        return 0;
    }
    number << low
}

// The number of a field at its place, 0 where the field isn't present.
fn part_of(scene: &Scene, csr: &Name, field: &FieldBodies, state: &HartState) -> u64
    requires ready { IsScene scene.now }
    ensures { result ≡ sum_by (number_at csr.now (state_of state.now))
        (one_placed (placed scene.now.space.now scene.now.full.now field.now)) % 2 ^ 64 }
{
    match field_place(scene, field) {
        Some(placed) => {
            let number = field_number(state.fields.as_slice(), csr, &field.name);
            at_place(number.unwrap_or(0), placed.bits.low)
        }
        None => 0,
    }
}

// The fields' numbers at their places, modulo two to the power of 64.
fn sum_of_fields(scene: &Scene, csr: &CsrBody, state: &HartState) -> u64
    requires ready { IsScene scene.now }
    ensures { result ≡ sum_by (number_at csr.now.name (state_of state.now))
        (filter_map (placed scene.now.space.now scene.now.full.now) csr.now.fields) % 2 ^ 64 }
{
    let mut sum: u64 = 0;
    for field in csr.fields.as_slice() {
        sum = sum.wrapping_add(part_of(scene, &csr.name, field, state));
    }
    sum
}

// The fields' numbers at their places, all other bits 0.
fn read_csr<'a>(scene: &Scene<'a>, csr: &'a CsrBody, state: &HartState) -> u64
    requires ready { IsScene scene.now }
    ensures value { result ≡ read_csr scene.now.space.now scene.now.full.now
        csr.now (state_of state.now) }
    ensures small { result < 2 ^ scene.now.registers }
{
    if !is_present_csr(scene, csr) {
        return 0;
    }
    truncated(scene.registers, sum_of_fields(scene, csr, state))
}

/// An exception where no CSR has an address: the instruction is illegal.
pub fn illegal(state: &HartState) -> Stop
    ensures { result ≡ stop.Raised 2 state.now.word }
{
    Stop::Raised {
        code: 2,
        tval: u64::from(state.word),
    }
}

/// The number of a CSR as software reads it.
pub fn soft_read(scene: &Scene, state: &HartState, one: Result<Addressed, Stop>) -> Part
    requires ready { IsScene scene.now }
    ensures { (o : Outcome found.Addressed) → Ends addressed_of o one.entry (state_of state.now)
        → Gives (and_then o (soft_read (setting_of scene.now))) result (state_of state.now) }
{
    let Some(csr) = one?.csr else {
        return Err(illegal(state));
    };
    let number = u128::from(read_csr(scene, csr, state));
    Ok(of_bits(Bits::new(scene.registers, false, number)))
}

/// The CSR that software writes: the instruction is illegal where none has the address, and where
/// bits 11:10 of it are set.
pub fn writable<'a>(state: &HartState, one: Addressed<'a>) -> Result<&'a CsrBody, Stop>
    ensures value { Ends (λ c. c.now) (writable_step (addressed_of one.entry) (state_of state.now))
        result (state_of state.now) }
    ensures known { IfOk result (λ c. one.entry.csr ≡ Some c) }
{
    let Some(csr) = one.csr else {
        return Err(illegal(state));
    };
    if one.address / 1024 % 4 == 3 {
        return Err(illegal(state));
    }
    Ok(csr)
}
