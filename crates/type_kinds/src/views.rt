//! What stands round an expression, and what its names stand for.

ghost use Rattle.std.specs.Prelude.{◌≡◌, false, None, Some, IfOk, map, option_map, if◌then◌else◌};
ghost use Rattle.udb_spec.specs.Conditions.{same_bytes};
ghost use Rattle.std.specs.Option.{option_copied};
ghost use Rattle.idl_tree.specs.declared.widths.Width.TheVariants as wd;
ghost use Rattle.idl_spec.specs.Fields.{csr_named, field_named};
ghost use Rattle.idl_spec.specs.Shapes.{or_else, of_bits, parameter_named, function_named, register_width, word_kind, field_kind, call_kind, shape_step};
ghost use Rattle.idl_spec.specs.Demands.{visible_named, names_at};
ghost use Rattle.idl_tree.specs.declared.expressions.Expr.TheOpen.{Expr-F};
ghost use Rattle.type_kinds.specs.Kinds.{kind_of, kind_if_any};
ghost use Rattle.type_kinds.specs.Views.{visible_of, view_of, seeing, parameter_kind};

use crate::kinds::{Kind, declared_kind, domain_kind, numbered_kind};
use idl_tree::{CsrBody, FieldBodies, Function, Program, Shape, Variable, Width};
use std::alloc::Global;
use udb_base::{Boxed, Copied, Name, NoMemory, ParamSpace, Space, both, copy_two};

/// A local, an argument, a counter or a variable of the encoding; the first two may be assigned.
#[derive(Drop)]
pub struct Visible {
    pub name: Name,
    pub kind: Kind,
    pub is_assignable: bool,
}

/// The kind that a body returns: none, that of a declared shape, the type of a field, or bits.
#[derive(Clone, Copy)]
pub enum Returns<'a> {
    Nothing,
    Shape(&'a Shape),
    FieldType,
    Bits,
}

impl Copied for Visible {
    fn copy(&self, alloc: Global) -> Result<Visible, NoMemory> {
        let (name, kind) = copy_two(alloc, &self.name, &self.kind)?;
        Ok(Visible {
            name,
            kind,
            is_assignable: self.is_assignable,
        })
    }
}

/// What stands round a node of a body: the space and the program, the variables of the encoding, the
/// functions that are declared before, whether it is a field's body and may read fields, the CSR
/// whose new number it sees, the kind that it returns, and the visible names, the innermost last.
#[derive(Clone, Copy)]
pub struct View<'a, 'v> {
    pub space: &'a Space,
    pub program: &'a Program,
    pub variables: &'a [Variable],
    pub before: &'a [Function],
    pub in_field: bool,
    pub reads_fields: bool,
    pub written: Option<&'a Name>,
    pub returns: Returns<'a>,
    pub visible: &'v [Visible],
}

/// The same with other visible names.
pub fn seeing<'a, 'v>(view: &View<'a, '_>, visible: &'v [Visible]) -> View<'a, 'v>
    ensures { view_of result ≡ seeing (view_of view.now) (map visible_of visible.now) }
{
    View {
        space: view.space,
        program: view.program,
        variables: view.variables,
        before: view.before,
        in_field: view.in_field,
        reads_fields: view.reads_fields,
        written: view.written,
        returns: view.returns,
        visible,
    }
}

/// The first parameter of a name.
pub fn parameter_named<'a>(params: &'a [ParamSpace], name: &str) -> Option<&'a ParamSpace>
    ensures { option_copied result ≡ parameter_named params.now name.now }
{
    for param in params {
        if param.name.as_str() == name {
            return Some(param);
        }
    }
    None
}

/// The first function of a name.
pub fn function_named<'a>(functions: &'a [Function], name: &Name) -> Option<&'a Function>
    ensures { option_copied result ≡ function_named functions.now name.now }
{
    for function in functions {
        if function.name == *name {
            return Some(function);
        }
    }
    None
}

/// The first CSR of a name.
pub fn csr_named<'a>(csrs: &'a [CsrBody], name: &Name) -> Option<&'a CsrBody>
    ensures { option_copied result ≡ csr_named csrs.now name.now }
{
    for csr in csrs {
        if csr.name == *name {
            return Some(csr);
        }
    }
    None
}

/// The first field of a name.
pub fn field_named<'a>(fields: &'a [FieldBodies], name: &Name) -> Option<&'a FieldBodies>
    ensures { option_copied result ≡ field_named fields.now name.now }
{
    for field in fields {
        if field.name == *name {
            return Some(field);
        }
    }
    None
}

// What is visible by a name, where it has the name, else what was found before it.
fn later<'a>(one: &'a Visible, name: &Name, found: Option<&'a Visible>) -> Option<&'a Visible>
    ensures { option_map visible_of (option_copied result)
        ≡ or_else (if same_bytes one.now.name name.now then Some (visible_of one.now) else None)
        (option_map visible_of (option_copied found.entry)) }
{
    if one.name == *name {
        return Some(one);
    }
    found
}

/// The innermost visible thing of a name.
pub fn visible_named<'v>(view: &View<'_, 'v>, name: &Name) -> Option<&'v Visible>
    ensures { option_map visible_of (option_copied result)
        ≡ visible_named (view_of view.now) name.now }
{
    let visible = view.visible;
    let mut found: Option<&Visible> = None;
    for one in visible {
        found = later(one, name, found);
    }
    found
}

fn parameter_kind(alloc: Global, view: &View, name: &Name) -> Result<Option<Kind>, NoMemory>
    ensures { IfOk result (λ k. kind_if_any k ≡ parameter_kind view.now.space.now.params name.now) }
{
    match parameter_named(view.space.params.as_slice(), name.as_str()) {
        Some(param) => Ok(Some(domain_kind(alloc, &param.domain)?)),
        None => Ok(None),
    }
}

/// The kind of a word.
pub(crate) fn word_kind(alloc: Global, view: &View, name: &Name) -> Result<Option<Kind>, NoMemory>
    ensures { IfOk result (λ k. kind_if_any k
        ≡ word_kind (names_at (view_of view.now)) name.now) }
{
    match visible_named(view, name) {
        Some(one) => Ok(Some(one.kind.copy(alloc)?)),
        None => parameter_kind(alloc, view, name),
    }
}

// Bits that a name has by the rules of `$bits`.
fn field_bits(alloc: Global, csr: &Name, field: &Name) -> Result<Kind, NoMemory>
    ensures { IfOk result (λ k. kind_of k ≡ of_bits (wd.Bits (Some csr.now) field.now) false) }
{
    let (csr, name) = both(csr.copy(alloc), field.copy(alloc))?;
    Ok(Kind::Bits {
        width: Boxed::new(
            alloc,
            Width::Bits {
                csr: Some(csr),
                name,
            },
        )?,
        signed: false,
    })
}

/// The kind of a field.
pub(crate) fn field_kind(
    alloc: Global,
    view: &View,
    csr: &Name,
    field: &Name,
) -> Result<Option<Kind>, NoMemory>
    ensures { IfOk result (λ k. kind_if_any k
        ≡ field_kind (names_at (view_of view.now)) csr.now field.now) }
{
    let Some(body) = csr_named(view.program.csrs.as_slice(), csr) else {
        return Ok(None);
    };
    match field_named(body.fields.as_slice(), field) {
        Some(_) => Ok(Some(field_bits(alloc, csr, field)?)),
        None => Ok(None),
    }
}

/// The kind of a field of the number that software writes.
pub(crate) fn new_field_kind(
    alloc: Global,
    view: &View,
    field: &Name,
) -> Result<Option<Kind>, NoMemory>
    ensures { IfOk result (λ k. kind_if_any k
        ≡ shape_step (names_at (view_of view.now)) (Expr-F.NewField field.now)) }
{
    match view.written {
        Some(csr) => field_kind(alloc, view, csr, field),
        None => Ok(None),
    }
}

/// The kind of what a function returns.
pub(crate) fn call_kind(alloc: Global, view: &View, name: &Name) -> Result<Option<Kind>, NoMemory>
    ensures { IfOk result (λ k. kind_if_any k
        ≡ call_kind (names_at (view_of view.now)) name.now) }
{
    let Some(function) = function_named(view.program.functions.as_slice(), name) else {
        return Ok(None);
    };
    match &function.result {
        Some(shape) => Ok(Some(declared_kind(alloc, shape)?)),
        None => Ok(None),
    }
}

/// The kind of a register: MXLEN bits, or 32 where no parameter has that name.
pub(crate) fn register_kind(alloc: Global, view: &View) -> Result<Kind, NoMemory>
    ensures { IfOk result (λ k. kind_of k
        ≡ of_bits (register_width view.now.space.now.params) false) }
{
    match parameter_named(view.space.params.as_slice(), "MXLEN") {
        Some(_) => Ok(Kind::Bits {
            width: Boxed::new(alloc, Width::Word(Name::of(alloc, "MXLEN")?))?,
            signed: false,
        }),
        None => numbered_kind(alloc, 32),
    }
}
