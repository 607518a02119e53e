//! Which parameters widths name.

ghost use Rattle.std.specs.Prelude.{◌≡◌, ◌&&◌, ◌||◌, not};
ghost use Rattle.std.specs.List.{list_any};
ghost use Rattle.udb_base.specs.Lists.{is_among};
ghost use Rattle.udb_spec.specs.Conditions.{same_bytes};
ghost use Rattle.idl_spec.specs.Costs.{is_for_all, is_everywhere, field_by_base, named_in};
ghost use Rattle.type_costs.specs.Turns.{bits_by_base, bounds_name};

use idl_tree::{Base, FieldBodies, FieldPlaces, Program, Variable, Width};
use udb_base::Name;

fn is_for_all(base: Base) -> bool
    ensures { result ≡ is_for_all base }
{
    match base {
        Base::All => true,
        Base::Rv32 => false,
        Base::Rv64 => false,
    }
}

// Whether a variable of a name stands for one width of the registers alone.
fn variable_by_base(variables: &[Variable], name: &Name) -> bool
    ensures { result ≡ list_any (λ v. same_bytes v.name name.now && not (is_for_all v.base))
        variables.now }
{
    for variable in variables {
        if variable.name == *name && !is_for_all(variable.base) {
            return true;
        }
    }
    false
}

fn is_everywhere(places: &FieldPlaces) -> bool
    ensures { result ≡ is_everywhere places.now }
{
    match places {
        FieldPlaces::All(_) => true,
        FieldPlaces::ByBase { rv32: _, rv64: _ } => false,
    }
}

// Whether a field of a name stands elsewhere for each width of the registers.
fn has_field_by_base(fields: &[FieldBodies], name: &Name) -> bool
    ensures { result ≡ list_any (λ f. same_bytes f.name name.now && not (is_everywhere f.places))
        fields.now }
{
    for field in fields {
        if field.name == *name && !is_everywhere(&field.places) {
            return true;
        }
    }
    false
}

fn field_by_base(program: &Program, csr: &Name, field: &Name) -> bool
    ensures { result ≡ field_by_base program.now csr.now field.now }
{
    for one in program.csrs.as_slice() {
        if one.name == *csr && has_field_by_base(one.fields.as_slice(), field) {
            return true;
        }
    }
    false
}

// Whether the bits of a variable, or of a field where a CSR stands, differ by the registers.
fn bits_by_base(program: &Program, variables: &[Variable], csr: &Option<Name>, name: &Name) -> bool
    ensures { result ≡ bits_by_base program.now variables.now csr.now name.now }
{
    match csr {
        None => variable_by_base(variables, name),
        Some(csr) => field_by_base(program, csr, name),
    }
}

// Whether a width names a parameter. What differs by the registers names MXLEN.
#[tactic(auto, using(crate::proofs::NamedParameters::name_laws))]
fn is_named(program: &Program, variables: &[Variable], width: &Width, param: &Name) -> bool
    ensures { result ≡ is_among same_bytes param.now
        (named_in program.now variables.now width.now).params }
{
    match width {
        Width::Number(_) => false,
        Width::Word(name) => *param == *name,
        Width::Plus(a, b) => {
            is_named(program, variables, a.get(), param)
                || is_named(program, variables, b.get(), param)
        }
        Width::Minus(a, b) => {
            is_named(program, variables, a.get(), param)
                || is_named(program, variables, b.get(), param)
        }
        Width::Times(a, b) => {
            is_named(program, variables, a.get(), param)
                || is_named(program, variables, b.get(), param)
        }
        Width::Max(a, b) => {
            is_named(program, variables, a.get(), param)
                || is_named(program, variables, b.get(), param)
        }
        Width::Bits { csr, name } => {
            bits_by_base(program, variables, csr, name) && param.as_str() == "MXLEN"
        }
    }
}

/// Whether one of two bounds of a loop names a parameter.
#[tactic(auto, using(crate::proofs::NamedParameters::both_laws))]
pub(crate) fn bounds_name(
    program: &Program,
    variables: &[Variable],
    from: &Width,
    to: &Width,
    param: &Name,
) -> bool
    ensures { result ≡ bounds_name program.now variables.now from.now to.now param.now }
{
    is_named(program, variables, from, param) || is_named(program, variables, to, param)
}
