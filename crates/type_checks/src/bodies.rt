//! The checks of whole bodies.

ghost use Rattle.std.specs.Prelude.{◌≡◌, ◌++◌, ◌∷◌, [], map, flat_map, option_map, is_some, None, Some, false, IfOk, OnOk};
ghost use Rattle.std.specs.List.{list_any};
ghost use Rattle.udb_spec.specs.Conditions.{same_bytes};
ghost use Rattle.idl_spec.specs.Shapes as meant;
ghost use Rattle.idl_spec.specs.Demands.{shape_issues};
ghost use Rattle.idl_spec.specs.Checks.{check, variable_names, argument_names, are_fresh, result_shape_issues, function_issues, return_missing, header_issues, csr_name, body_checks};
ghost use Rattle.type_kinds.specs.Kinds.{kind_if_any};
ghost use Rattle.std.specs.Option.{option_copied};
ghost use Rattle.idl_tree.specs.declared.widths.Width.TheVariants as wd;
ghost use Rattle.idl_spec.specs.declared.scopes.BodyScope.TheVariants as scopes;
ghost use Rattle.type_kinds.specs.Views.{view_of, visible_of, returned};
ghost use Rattle.type_issues.specs.Issues.{issues_of, checks_of};
ghost use Rattle.type_checks.specs.Nodes.{checks_in, field_view_of};

use crate::expressions::push_check;
use crate::statements::{Names, push_block, push_visible};
use idl_reach::ends_in_return;
use idl_spec::BodyScope;
use idl_tree::{Argument, Body, EnumKind, Function, Program, Shape, Variable, Width};
use sqlite_items::at;
use std::alloc::Global;
use type_issues::{Checks, Issues, push_mismatch, shape_issues};
use type_kinds::{Kind, Returns, View, Visible, declared_kind, numbered_kind, parameter_named};
use udb_base::{
    Boxed, Cond, Conds, Copied, Many, Name, NoMemory, ParamSpace, Space, both, copy_all,
};

// The width of a variable of the encoding.
fn variable_kind(alloc: Global, name: &Name) -> Result<Kind, NoMemory>
    ensures { IfOk result (λ k. kind_if_any (Some k)
        ≡ Some (meant.of_bits (wd.Bits None name.now) false)) }
{
    let name = name.copy(alloc)?;
    Ok(Kind::Bits {
        width: Boxed::new(alloc, Width::Bits { csr: None, name })?,
        signed: false,
    })
}

// The variables of an encoding, as they are visible.
fn variable_names(alloc: Global, variables: &[Variable]) -> Result<Names, NoMemory>
    ensures { IfOk result (λ ns. map visible_of ns ≡ variable_names variables.now) }
{
    let mut names = Many::new(alloc);
    for variable in variables {
        let (name, kind) = both(
            variable.name.copy(alloc),
            variable_kind(alloc, &variable.name),
        )?;
        push_visible(
            &mut names,
            Visible {
                name,
                kind,
                is_assignable: false,
            },
        )?;
    }
    Ok(names)
}

// The arguments of a function, as they are visible.
fn argument_names(alloc: Global, arguments: &[Argument]) -> Result<Names, NoMemory>
    ensures { IfOk result (λ ns. map visible_of ns ≡ argument_names arguments.now) }
{
    let mut names = Many::new(alloc);
    for argument in arguments {
        let (name, kind) = both(
            argument.name.copy(alloc),
            declared_kind(alloc, &argument.shape),
        )?;
        push_visible(
            &mut names,
            Visible {
                name,
                kind,
                is_assignable: true,
            },
        )?;
    }
    Ok(names)
}

fn has_argument(arguments: &[Argument], name: &Name) -> bool
    ensures { result ≡ list_any (λ z. same_bytes z.name name.now) arguments.now }
{
    for argument in arguments {
        if argument.name == *name {
            return true;
        }
    }
    false
}

fn has_parameter(params: &[ParamSpace], name: &Name) -> bool
    ensures { result ≡ is_some (meant.parameter_named params.now name.now) }
{
    match parameter_named(params, name.as_str()) {
        Some(_) => true,
        None => false,
    }
}

// Whether arguments have distinct names, none a parameter's.
fn are_fresh(params: &[ParamSpace], arguments: &[Argument]) -> bool
    ensures { result ≡ are_fresh params.now arguments.now }
{
    for (place, argument) in arguments.iter().enumerate() {
        let more = &arguments[place + 1..];
        if has_argument(more, &argument.name) || has_parameter(params, &argument.name) {
            return false;
        }
    }
    true
}

fn returned_issues(
    alloc: Global,
    view: &View,
    returned: &Option<Shape>,
    issues: &mut Issues,
) -> Result<(), NoMemory>
    ensures { OnOk result (issues_of issues.new
        ≡ issues_of issues.old ++ result_shape_issues (view_of view.now) returned.now) }
{
    match returned {
        Some(shape) => shape_issues(alloc, view, shape, issues),
        None => Ok(()),
    }
}

#[tactic(auto, using(crate::proofs::WalkForms::list_laws))]
fn argument_issues(
    alloc: Global,
    view: &View,
    arguments: &[Argument],
    issues: &mut Issues,
) -> Result<(), NoMemory>
    ensures { OnOk result (issues_of issues.new ≡ issues_of issues.old
        ++ flat_map (λ a. shape_issues (view_of view.now) a.shape) arguments.now) }
{
    for argument in arguments {
        shape_issues(alloc, view, &argument.shape, issues)?;
    }
    Ok(())
}

// Raises what the header of a function asks.
#[tactic(auto, using(crate::proofs::WalkForms::list_laws))]
fn function_issues(
    alloc: Global,
    view: &View,
    function: Option<&Function>,
    issues: &mut Issues,
) -> Result<(), NoMemory>
    ensures { OnOk result (issues_of issues.new ≡ issues_of issues.old
        ++ function_issues (view_of view.now) (option_copied function.entry)) }
{
    let Some(function) = function else {
        return Ok(());
    };
    returned_issues(alloc, view, &function.result, issues)?;
    let arguments = function.arguments.as_slice();
    argument_issues(alloc, view, arguments, issues)?;
    push_mismatch(issues, are_fresh(view.space.params.as_slice(), arguments))
}

fn returns_some(returns: Returns) -> bool
    ensures { result ≡ is_some (returned returns.entry) }
{
    match returns {
        Returns::Nothing => false,
        Returns::Shape(_) => true,
        Returns::FieldType => true,
        Returns::Bits => true,
    }
}

// Raises a mismatch where a body that returns a value doesn't end in a return.
fn return_missing(view: &View, body: &Body, issues: &mut Issues) -> Result<(), NoMemory>
    ensures { OnOk result (issues_of issues.new
        ≡ issues_of issues.old ++ return_missing (view_of view.now) body.now) }
{
    let ends = ends_in_return(body.statements.as_slice());
    push_mismatch(issues, !returns_some(view.returns) || ends)
}

// Raises what the header of a body asks.
#[tactic(auto, using(crate::proofs::WalkForms::list_laws))]
fn header_issues(
    alloc: Global,
    view: &View,
    scope: BodyScope,
    body: &Body,
    issues: &mut Issues,
) -> Result<(), NoMemory>
    ensures { OnOk result (issues_of issues.new
        ≡ issues_of issues.old ++ header_issues (view_of view.now) scope body.now) }
{
    match scope {
        BodyScope::Operation => return_missing(view, body, issues),
        BodyScope::Function { place } => {
            let function = at(view.program.functions.as_slice(), place as usize);
            function_issues(alloc, view, function, issues)?;
            return_missing(view, body, issues)
        }
        BodyScope::FieldType { csr: _, field: _ } => return_missing(view, body, issues),
        BodyScope::FieldReset { csr: _, field: _ } => return_missing(view, body, issues),
        BodyScope::FieldWrite { csr: _, field: _ } => return_missing(view, body, issues),
    }
}

// The checks of a body under what stands round it.
#[tactic(auto, using(crate::proofs::WalkForms::list_laws))]
fn checks_in(
    alloc: Global,
    view: &View,
    presence: &Cond,
    scope: BodyScope,
    body: &Body,
) -> Result<Checks, NoMemory>
    ensures { IfOk result (λ cs. checks_of cs
        ≡ checks_in (view_of view.now) presence.now scope body.now) }
{
    let context = alone(alloc, presence)?;
    let mut issues = Many::new(alloc);
    header_issues(alloc, view, scope, body, &mut issues)?;
    let mut checks = Many::new(alloc);
    push_check(alloc, context.as_slice(), issues, &mut checks)?;
    let names = copy_all(alloc, view.visible)?;
    let statements = body.statements.as_slice();
    push_block(
        alloc,
        view,
        names,
        statements,
        context.as_slice(),
        &mut checks,
    )?;
    Ok(checks)
}

// A context of one condition.
fn alone(alloc: Global, presence: &Cond) -> Result<Conds, NoMemory>
    ensures { IfOk result (λ cs. cs ≡ presence.now ∷ []) }
{
    let mut context = Many::new(alloc);
    context.push(presence.copy(alloc)?)?;
    Ok(context)
}

// The checks of an operation.
fn operation_checks<'a>(
    alloc: Global,
    space: &'a Space,
    program: &'a Program,
    presence: &Cond,
    body: &'a Body,
) -> Result<Checks, NoMemory>
    ensures { IfOk result (λ cs. checks_of cs
        ≡ body_checks space.now program.now presence.now scopes.Operation body.now) }
{
    let names = variable_names(alloc, body.variables.as_slice())?;
    let view = View {
        space,
        program,
        variables: body.variables.as_slice(),
        before: program.functions.as_slice(),
        in_field: false,
        reads_fields: true,
        written: None,
        returns: Returns::Nothing,
        visible: names.as_slice(),
    };
    checks_in(alloc, &view, presence, BodyScope::Operation, body)
}

// What a function returns.
fn returned(function: &Function) -> Returns
    ensures { returned result ≡ option_map meant.declared_kind function.now.result }
{
    match &function.result {
        Some(shape) => Returns::Shape(shape),
        None => Returns::Nothing,
    }
}

// The checks of a function's body.
fn function_checks<'a>(
    alloc: Global,
    space: &'a Space,
    program: &'a Program,
    presence: &Cond,
    place: u32,
    body: &'a Body,
) -> Result<Checks, NoMemory>
    ensures { IfOk result (λ cs. checks_of cs
        ≡ body_checks space.now program.now presence.now (scopes.Function place) body.now) }
{
    let functions = program.functions.as_slice();
    let variables = &body.variables.as_slice()[..0];
    match at(functions, place as usize) {
        Some(function) => {
            let names = argument_names(alloc, function.arguments.as_slice())?;
            let view = View {
                space,
                program,
                variables,
                before: &functions[..place as usize],
                in_field: false,
                reads_fields: true,
                written: None,
                returns: returned(function),
                visible: names.as_slice(),
            };
            checks_in(alloc, &view, presence, BodyScope::Function { place }, body)
        }
        None => {
            let names: Names = Many::new(alloc);
            let view = View {
                space,
                program,
                variables,
                before: functions,
                in_field: false,
                reads_fields: true,
                written: None,
                returns: Returns::Nothing,
                visible: names.as_slice(),
            };
            checks_in(alloc, &view, presence, BodyScope::Function { place }, body)
        }
    }
}

// The checks of a field's body.
fn field_checks<'a>(
    alloc: Global,
    space: &'a Space,
    program: &'a Program,
    presence: &Cond,
    scope: BodyScope,
    body: &'a Body,
    reads_fields: bool,
    written: Option<&'a Name>,
    returns: Returns<'a>,
) -> Result<Checks, NoMemory>
    ensures { IfOk result (λ cs. checks_of cs ≡ checks_in
        (field_view_of space.now program.now reads_fields (option_map (λ n. n.now) written.entry)
        (returned returns.entry)) presence.now scope body.now) }
{
    let names: Names = Many::new(alloc);
    let view = View {
        space,
        program,
        variables: &body.variables.as_slice()[..0],
        before: program.functions.as_slice(),
        in_field: true,
        reads_fields,
        written,
        returns,
        visible: names.as_slice(),
    };
    checks_in(alloc, &view, presence, scope, body)
}

// The name of a CSR.
fn csr_name(program: &Program, place: u32) -> Option<&Name>
    ensures { option_map (λ n. n.now) result ≡ csr_name program.now place }
{
    let csr = at(program.csrs.as_slice(), place as usize)?;
    Some(&csr.name)
}

/// The checks of a body's nodes in prefix order, the header's first: what typing asks of each node,
/// and in which context. `presence` says in which full configurations the body stands. The one
/// refusal is want of memory.
pub fn body_checks<'a>(
    alloc: Global,
    space: &'a Space,
    program: &'a Program,
    presence: &Cond,
    scope: BodyScope,
    body: &'a Body,
) -> Result<Checks, NoMemory>
    ensures { IfOk result (λ cs. checks_of cs
        ≡ body_checks space.now program.now presence.now scope body.now) }
{
    match scope {
        BodyScope::Operation => operation_checks(alloc, space, program, presence, body),
        BodyScope::Function { place } => {
            function_checks(alloc, space, program, presence, place, body)
        }
        BodyScope::FieldType { csr: _, field: _ } => field_checks(
            alloc,
            space,
            program,
            presence,
            scope,
            body,
            false,
            None,
            Returns::FieldType,
        ),
        BodyScope::FieldReset { csr: _, field: _ } => field_checks(
            alloc,
            space,
            program,
            presence,
            scope,
            body,
            false,
            None,
            Returns::Bits,
        ),
        BodyScope::FieldWrite { csr, field: _ } => field_checks(
            alloc,
            space,
            program,
            presence,
            scope,
            body,
            true,
            csr_name(program, csr),
            Returns::Bits,
        ),
    }
}
