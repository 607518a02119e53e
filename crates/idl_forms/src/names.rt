//! What the names of a body stand for: locals, variables of the encoding, parameters, functions,
//! members of enumerations and extensions.

ghost use Rattle.std.specs.Prelude.{◌≡◌, ◌≤◌, ◌<◌, ◌+◌, ◌^◌, ◌∷◌, [], None, Some, if◌then◌else◌, IfOk, OnOk, IfSome, All, find, is_some, length, option_map, position, sum_by};
ghost use Rattle.idl_tree.specs.declared.programs.BitPart.{BitPart};
ghost use Rattle.idl_tree.specs.declared.widths.EnumKind.TheVariants.{PrivilegeMode, ExceptionCode, CsrFieldType};
ghost use Rattle.std.specs.Option.{option_copied};
ghost use Rattle.udb_spec.specs.Conditions.{same_bytes, choice_meets, present_among};
ghost use Rattle.udb_spec.specs.Spaces.{InDomain};
ghost use Rattle.idl_spec.specs.Values.{bits, plain, least_width, member, member_number};
ghost use Rattle.idl_spec.specs.Harts.{State, required};
ghost use Rattle.idl_spec.specs.Shapes.{or_else, innermost, greatest, parameter_named};
ghost use Rattle.idl_spec.specs.Fields.{part_width, is_for, gathered, variable_width, variable_pattern, variables_for};
ghost use Rattle.idl_spec.specs.Settings.{value_named, is_local, given_value, variable_among, parameter_value};
ghost use Rattle.idl_spec.specs.Forms.{choice_among, implemented, implemented_version};
ghost use Rattle.idl_spec.specs.Mean.{declared, assigned};
ghost use Rattle.idl_forms.specs.States.{as_value, as_scalar, scope_of, Gives, Finds, or_stop};
ghost use Rattle.idl_forms.specs.Scenes.{setting_of};
ghost use Rattle.idl_forms.specs.Ready.{IsScene, IsPart, IsLawfulVariable};
ghost use Rattle.idl_forms.specs.Variables.{IsWordPart, is_variable};

use crate::bits::variable_width;
use crate::fields::bits_of;
use crate::kinds::greatest;
use crate::operators::least_width;
use crate::scenes::Scene;
use crate::values::{Local, Part, Scalar, Stop, Value, of_bits, of_flag, required};
use idl_bits::Bits;
use idl_tree::{Base, BitPart, EnumKind, Function, Variable};
use std::alloc::Global;
use udb_base::{
    Chars, Copied, Domain, ExtSpace, Listed, Name, NoMemory, ParamSpace, Requirement,
    Value as Given, Version,
};
use udb_cond::{holds, meets, parse_requirement, value_of};

// The value of a local, where it has the name, else what was found before it.
fn later(local: &Local, name: &Name, found: Option<Scalar>) -> Option<Scalar>
    ensures { option_map as_scalar result
        ≡ or_else (if same_bytes local.now.name name.now then Some (as_scalar local.now.value) else
        None) (option_map as_scalar found) }
{
    if local.name == *name {
        return Some(local.value);
    }
    found
}

/// The innermost value of a name.
pub fn local(scope: &[Local], name: &Name) -> Option<Scalar>
    ensures { option_map as_scalar result ≡ innermost (scope_of scope.now) name.now }
{
    let mut found = None;
    for local in scope {
        found = later(local, name, found);
    }
    found
}

/// Gives the innermost of a name another value.
pub fn assign_local(scope: &mut [Local], name: &Name, value: Scalar)
    ensures { scope_of scope.new ≡ assigned (scope_of scope.old) name.now (as_scalar value) }
{
    let mut at = scope.len();
    while at > 0 {
        at -= 1;
        if scope[at].name == *name {
            scope[at].value = value;
            return;
        }
    }
}

/// Adds a name.
pub fn declare(
    alloc: Global,
    scope: &mut Vec<Local>,
    name: &Name,
    value: Scalar,
) -> Result<(), NoMemory>
    ensures { OnOk result (scope_of scope.new.items
        ≡ declared (scope_of scope.old.items) name.now (as_scalar value)) }
{
    let name = name.copy(alloc)?;
    scope.push(Local { name, value })?;
    Ok(())
}

fn is_function(function: &Function, name: &Name) -> bool
    ensures { result ≡ same_bytes function.now.name name.now }
{
    function.name == *name
}

/// The place of the first function of a name.
pub fn function_place(functions: &[Function], name: &Name) -> Option<usize>
    ensures value { result ≡ position (λ f. same_bytes f.name name.now) functions.now }
    ensures within { IfSome result (λ at. at < length functions.now) }
{
    functions
        .iter()
        .position(|function| is_function(function, name))
}

/// How many bits a part has.
pub fn part_width(part: BitPart) -> u8
    requires part { IsPart part }
    ensures value { result ≡ part_width part }
    ensures bounds { (1 ≤ result) × (result ≤ 64) }
{
    (part.high - part.low + 1) as u8
}

fn is_for(registers: u8, base: Base) -> bool
    ensures { result ≡ is_for registers base }
{
    match base {
        Base::All => true,
        Base::Rv32 => registers == 32,
        Base::Rv64 => registers == 64,
    }
}

// The bits of a word at the places of a variable.
fn gathered(word: u32, location: &[BitPart]) -> u64
    requires parts { All IsWordPart location.now }
    requires few { sum_by part_width location.now ≤ 32 }
    ensures value { result ≡ gathered word location.now }
    ensures small { result < 2 ^ sum_by part_width location.now }
{
    let mut pattern: u64 = 0;
    for part in location {
        let part = *part;
        pattern = (pattern << part_width(part)) | bits_of(u64::from(word), part);
    }
    pattern
}

fn variable_value(variable: &Variable, word: u32) -> Bits
    requires lawful { IsLawfulVariable variable.now }
    ensures { result ≡ plain (variable_width variable.now) (variable_pattern word variable.now) }
{
    let width = variable_width(variable);
    let pattern = u128::from(gathered(word, variable.location.as_slice()));
    Bits::new(width, false, pattern << variable.shift)
}

/// Whether a variable has a name and stands for a width of the registers.
pub fn is_variable(registers: u8, variable: &Variable, name: &Name) -> bool
    ensures { result ≡ is_variable registers name.now variable.now }
{
    variable.name == *name && is_for(registers, variable.base)
}

// The bits of the variable of a name in a word.
fn variable(scene: &Scene, name: &Name, word: u32) -> Option<Bits>
    requires ready { IsScene scene.now }
    ensures { option_map bits result
        ≡ variable_among word (variables_for scene.now.registers scene.now.variables.now name.now) }
{
    for variable in scene.variables {
        if is_variable(scene.registers, variable, name) {
            return Some(variable_value(variable, word));
        }
    }
    None
}

/// The first parameter of a name.
pub fn parameter_named<'a>(params: &'a [ParamSpace], name: &Name) -> Option<&'a ParamSpace>
    ensures { option_copied result ≡ parameter_named params.now name.now }
{
    for param in params {
        if param.name == *name {
            return Some(param);
        }
    }
    None
}

// The value that a full configuration gives a parameter.
fn given_value(alloc: Global, domain: &Domain, given: &Given) -> Result<Value, NoMemory>
    requires { InDomain domain.now given.now }
    ensures { IfOk result (λ v. as_value v
        ≡ given_value (least_width (greatest domain.now)) given.now) }
{
    match given {
        Given::Flag(flag) => Ok(of_flag(*flag)),
        Given::Number(number) => {
            let width = least_width(u128::from(greatest(domain)));
            Ok(of_bits(Bits::new(width, false, u128::from(*number))))
        }
        Given::Word(word) => Ok(Value::Given(word.copy(alloc)?)),
    }
}

// The value of a parameter, where it is defined.
fn parameter(alloc: Global, scene: &Scene, name: &Name) -> Part
    requires ready { IsScene scene.now }
    ensures { Finds as_value (required (parameter_value (setting_of scene.now) name.now)) result }
{
    let param = required(parameter_named(scene.space.params.as_slice(), name))?;
    if !holds(scene.space, &param.defined, scene.full) {
        return Err(Stop::Stuck);
    }
    match value_of(scene.space, scene.full, name.as_str()) {
        Some(given) => Ok(given_value(alloc, &param.domain, given)?),
        None => Err(Stop::Stuck),
    }
}

/// The value of a name: of a local, of a variable of the encoding or of a parameter.
pub fn word(alloc: Global, scene: &Scene, scope: &[Local], name: &Name, word: u32) -> Part
    requires ready { IsScene scene.now }
    ensures { (s : State) → s.word ≡ word
        → Gives (required (value_named (setting_of scene.now) (scope_of scope.now) name.now s) s)
        result s }
{
    if let Some(value) = local(scope, name) {
        return Ok(Value::Scalar(value));
    }
    if let Some(bits) = variable(scene, name, word) {
        return Ok(of_bits(bits));
    }
    parameter(alloc, scene, name)
}

fn has_local(scope: &[Local], name: &Name) -> bool
    ensures { result ≡ is_some (innermost (scope_of scope.now) name.now) }
{
    local(scope, name).is_some()
}

/// Whether a variable of the encoding has a name.
pub fn has_variable(scene: &Scene, name: &Name) -> bool
    ensures { result ≡ is_some (find (λ v. same_bytes v.name name.now) scene.now.variables.now) }
{
    for variable in scene.variables {
        if variable.name == *name {
            return true;
        }
    }
    false
}

/// Whether a name is that of a local or of a variable of the encoding.
pub fn is_local(scene: &Scene, scope: &[Local], name: &Name) -> bool
    ensures { result ≡ is_local (setting_of scene.now) (scope_of scope.now) name.now }
{
    has_local(scope, name) || has_variable(scene, name)
}

#[tactic(auto, unfolding(idl_spec::specs::Values::member_number))]
fn mode(name: &str) -> Option<u8>
    ensures { result ≡ member_number PrivilegeMode name.now }
{
    match name {
        "M" => Some(3),
        _ => None,
    }
}

#[tactic(auto, unfolding(idl_spec::specs::Values::member_number))]
fn exception(name: &str) -> Option<u8>
    ensures { result ≡ member_number ExceptionCode name.now }
{
    match name {
        "InstructionAddressMisaligned" => Some(0),
        "InstructionAccessFault" => Some(1),
        "IllegalInstruction" => Some(2),
        "Breakpoint" => Some(3),
        "LoadAddressMisaligned" => Some(4),
        "LoadAccessFault" => Some(5),
        "StoreAmoAddressMisaligned" => Some(6),
        "StoreAmoAccessFault" => Some(7),
        "Mcall" => Some(11),
        _ => None,
    }
}

#[tactic(auto, unfolding(idl_spec::specs::Values::member_number))]
fn field_type(name: &str) -> Option<u8>
    ensures { result ≡ member_number CsrFieldType name.now }
{
    match name {
        "RO" => Some(0),
        "ROH" => Some(1),
        "RW" => Some(2),
        "RWR" => Some(3),
        "RWH" => Some(4),
        "RWRH" => Some(5),
        _ => None,
    }
}

fn member_number(kind: EnumKind, name: &str) -> Option<u8>
    ensures { result ≡ member_number kind name.now }
{
    match kind {
        EnumKind::PrivilegeMode => mode(name),
        EnumKind::ExceptionCode => exception(name),
        EnumKind::CsrFieldType => field_type(name),
    }
}

/// A member of an enumeration.
pub fn member(kind: EnumKind, name: &Name) -> Part
    ensures { Finds as_value (required (option_map (member kind) (member_number kind name.now)))
        result }
{
    let number = required(member_number(kind, name.as_str()))?;
    Ok(Value::Scalar(Scalar::Member { kind, number }))
}

// What a full configuration chooses of the first extension of a name.
#[tactic(auto, using(crate::proofs::ChoicePlaces::choice_steps))]
fn choice_of<'a>(
    extensions: &[ExtSpace],
    choices: &'a [Option<Version>],
    name: &Name,
) -> Option<&'a Option<Version>>
    ensures { option_copied result ≡ choice_among extensions.now choices.now name.now }
{
    for (place, extension) in extensions.iter().enumerate() {
        if extension.name == *name {
            return choices.get(place);
        }
    }
    None
}

/// Whether an extension is present.
pub fn implemented(scene: &Scene, name: &Name) -> Part
    requires ready { IsScene scene.now }
    ensures { Finds as_value (required (implemented (setting_of scene.now) name.now)) result }
{
    let extensions = scene.space.extensions.as_slice();
    let choices = scene.full.extensions.as_slice();
    match choice_of(extensions, choices, name) {
        Some(choice) => Ok(of_flag(choice.is_some())),
        None => Err(Stop::Stuck),
    }
}

fn version_meets(list: &[Listed], need: &Requirement, choice: &Option<Version>) -> bool
    ensures { result ≡ choice_meets list.now (need.now ∷ []) choice.now }
{
    match choice {
        Some(version) => meets(list, need, version),
        None => false,
    }
}

// Whether the first extension of a name is present in a version that meets a requirement.
#[tactic(auto, using(crate::proofs::ChoicePlaces::present_steps))]
fn is_met(
    extensions: &[ExtSpace],
    choices: &[Option<Version>],
    name: &Name,
    need: &Requirement,
) -> bool
    ensures { result ≡ present_among extensions.now choices.now name.now (need.now ∷ []) }
{
    for (place, extension) in extensions.iter().enumerate() {
        if extension.name == *name {
            return match choices.get(place) {
                Some(choice) => version_meets(extension.versions.as_slice(), need, choice),
                None => false,
            };
        }
    }
    false
}

/// Whether an extension is present in a version that meets a requirement.
pub fn implemented_version(scene: &Scene, name: &Name, text: &Chars) -> Part
    requires ready { IsScene scene.now }
    ensures { Finds as_value (required
        (implemented_version (setting_of scene.now) name.now text.now)) result }
{
    let Ok(need) = parse_requirement(text.as_str()) else {
        return Err(Stop::Stuck);
    };
    let extensions = scene.space.extensions.as_slice();
    let choices = scene.full.extensions.as_slice();
    match choice_of(extensions, choices, name) {
        Some(_) => Ok(of_flag(is_met(extensions, choices, name, &need))),
        None => Err(Stop::Stuck),
    }
}
