//! Extensions and parameters by their names.

ghost use Rattle.std.specs.Prelude.{◌≡◌, codes, IfSome, position};
ghost use Rattle.std.specs.Option.{option_copied};
ghost use Rattle.udb_spec.specs.Conditions.{same_bytes, value_of};
ghost use Rattle.udb_spec.specs.Spaces.{number_or, mxlen};
ghost use Rattle.udb_cond.specs.Places as places;

use udb_base::{ExtSpace, Full, ParamSpace, Space, Value};

fn is_extension(extension: &ExtSpace, name: &str) -> bool
    ensures { result ≡ same_bytes extension.now.name name.now }
{
    extension.name.as_str() == name
}

fn is_param(param: &ParamSpace, name: &str) -> bool
    ensures { result ≡ same_bytes param.now.name name.now }
{
    param.name.as_str() == name
}

fn place_of_extension(extensions: &[ExtSpace], name: &str) -> Option<usize>
    ensures { result ≡ position (λ e. same_bytes e.name name.now) extensions.now }
{
    extensions
        .iter()
        .position(|extension| is_extension(extension, name))
}

fn place_of_param(params: &[ParamSpace], name: &str) -> Option<usize>
    ensures { result ≡ position (λ p. same_bytes p.name name.now) params.now }
{
    params.iter().position(|param| is_param(param, name))
}

/// The place, counted from 0, of the extension of a name in a space: the first of that name, which
/// in a lawful space is the only one. None where the space has none. The name at a place is that of
/// `space.extensions`.
pub fn extension_place(space: &Space, name: &str) -> Option<usize>
    ensures place { result ≡ places.extension_place space.now name.now }
    ensures found { IfSome result (λ k. places.IsExtensionAt space.now k name.now) }
    ensures only { places.IsOnlyExtension space.now name.now result }
{
    place_of_extension(space.extensions.as_slice(), name)
}

/// The place, counted from 0, of the parameter of a name in a space: the first of that name, which
/// in a lawful space is the only one. None where the space has none. The name at a place is that of
/// `space.params`.
pub fn param_place(space: &Space, name: &str) -> Option<usize>
    ensures place { result ≡ places.param_place space.now name.now }
    ensures found { IfSome result (λ k. places.IsParamAt space.now k name.now) }
    ensures only { places.IsOnlyParam space.now name.now result }
{
    place_of_param(space.params.as_slice(), name)
}

/// The value that a full configuration gives the parameter of a name, also where the parameter
/// isn't defined. None where the space has no such parameter or the configuration no value for it.
#[tactic(auto, using(crate::proofs::TruthLemmas::value_steps))]
pub fn value_of<'a>(space: &Space, full: &'a Full, name: &str) -> Option<&'a Value>
    ensures { option_copied result ≡ value_of space.now full.now name.now }
{
    let params = space.params.as_slice();
    let values = full.params.as_slice();
    for (place, param) in params.iter().enumerate() {
        if is_param(param, name) {
            return values.get(place);
        }
    }
    None
}

/// The number that a full configuration gives the parameter of a name, or `otherwise` where it
/// gives none or a value that is no number.
pub fn number_or(otherwise: u64, space: &Space, full: &Full, name: &str) -> u64
    ensures { result ≡ number_or otherwise (value_of space.now full.now name.now) }
{
    match value_of(space, full, name) {
        None => otherwise,
        Some(value) => match value {
            Value::Flag(_) => otherwise,
            Value::Number(number) => *number,
            Value::Word(_) => otherwise,
        },
    }
}

/// The width of a register in bits: the number of MXLEN, or 32 where a full configuration gives
/// none.
pub fn mxlen(space: &Space, full: &Full) -> u64
    ensures { result ≡ mxlen space.now full.now }
{
    number_or(32, space, full, "MXLEN")
}
