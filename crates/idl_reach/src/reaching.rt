//! The functions that calls reach, themselves or through their calls.

ghost use Rattle.std.specs.Prelude.{◌≡◌, ◌∷◌, ◌&&◌, [], IfOk};
ghost use Rattle.std.specs.List.{list_any, list_all};
ghost use Rattle.idl_spec.specs.Deeds.{with_called, repeated_for, reached, is_quiet, stays_in_fields, expr_deeds};
ghost use Rattle.idl_reach.specs.Asked.{passes, chosen, mark_at, is_call, is_met, does, named, called_by};

use crate::deeds::{Asked, any_in_expression, any_in_statements};
use idl_tree::{Expr, Function};
use std::alloc::Global;
use udb_base::{Many, Name, NoMemory};

fn function_does(asked: Asked, f: &Function) -> bool
    ensures { result ≡ does (passes asked.entry) f.now }
{
    any_in_statements(asked, f.body.statements.as_slice())
}

/// The mark of a place; past the end there is none.
pub(crate) fn is_marked(marks: &[bool], place: usize) -> bool
    ensures { result ≡ mark_at marks.now place }
{
    match marks.get(place) {
        Some(mark) => *mark,
        None => false,
    }
}

// Whether a function has a name, or calls the function of that name.
fn meets(f: &Function, name: &Name) -> bool
    ensures { result ≡ is_met name.now f.now }
{
    *name == f.name || function_does(Asked::Calls(name), f)
}

fn marked_meets(marks: &[bool], place: usize, f: &Function, name: &Name) -> bool
    ensures { result ≡ (mark_at marks.now place && is_met name.now f.now) }
{
    is_marked(marks, place) && meets(f, name)
}

fn marked_does(marks: &[bool], place: usize, f: &Function, asked: Asked) -> bool
    ensures { result ≡ (mark_at marks.now place && does (passes asked.entry) f.now) }
{
    is_marked(marks, place) && function_does(asked, f)
}

fn calls(name: &Name, e: &Expr) -> bool
    ensures { result ≡ list_any (is_call name.now) (expr_deeds e.now) }
{
    any_in_expression(Asked::Calls(name), e)
}

// Whether a function is among those that are marked, or one of these calls it.
fn is_reached(functions: &[Function], marks: &[bool], name: &Name) -> bool
    ensures { result ≡ list_any (is_met name.now) (chosen functions.now marks.now) }
{
    for (place, f) in functions.iter().enumerate() {
        if marked_meets(marks, place, f, name) {
            return true;
        }
    }
    false
}

// Whether one of the marked functions does what is asked.
fn any_marked(asked: Asked, functions: &[Function], marks: &[bool]) -> bool
    ensures { result ≡ list_any (does (passes asked.entry)) (chosen functions.now marks.now) }
{
    for (place, f) in functions.iter().enumerate() {
        if marked_does(marks, place, f, asked) {
            return true;
        }
    }
    false
}

// Marks those that are marked or called by these.
fn mark_called(
    alloc: Global,
    functions: &[Function],
    marks: &[bool],
) -> Result<Many<bool>, NoMemory>
    ensures { IfOk result (λ ms. chosen functions.now ms
        ≡ with_called functions.now (chosen functions.now marks.now)) }
{
    let mut more = Many::new(alloc);
    for f in functions {
        more.push(is_reached(functions, marks, &f.name))?;
    }
    Ok(more)
}

/// Marks all that are reached from those that are marked.
pub(crate) fn mark_reached(
    alloc: Global,
    functions: &[Function],
    marks: Many<bool>,
) -> Result<Many<bool>, NoMemory>
    ensures { IfOk result (λ ms. chosen functions.now ms
        ≡ repeated_for functions.now functions.now (chosen functions.now marks)) }
{
    let mut marks = marks;
    for _turn in functions {
        marks = mark_called(alloc, functions, marks.as_slice())?;
    }
    Ok(marks)
}

// Marks the functions of a name.
fn mark_named(alloc: Global, functions: &[Function], name: &Name) -> Result<Many<bool>, NoMemory>
    ensures { IfOk result (λ ms. chosen functions.now ms ≡ named name.now functions.now) }
{
    let mut marks = Many::new(alloc);
    for f in functions {
        marks.push(f.name == *name)?;
    }
    Ok(marks)
}

// Marks the functions that an expression calls.
fn mark_called_by(alloc: Global, functions: &[Function], e: &Expr) -> Result<Many<bool>, NoMemory>
    ensures { IfOk result (λ ms. chosen functions.now ms ≡ called_by e.now functions.now) }
{
    let mut marks = Many::new(alloc);
    for f in functions {
        marks.push(calls(&f.name, e))?;
    }
    Ok(marks)
}

/// Whether no function that a call of a name reaches does what a body of a field has to leave;
/// `reads` says whether it may read fields. The one refusal is want of memory.
#[tactic(auto, using(crate::proofs::MarkedFunctions::stay_laws))]
pub fn call_stays_in_fields(
    alloc: Global,
    functions: &[Function],
    reads: bool,
    name: &Name,
) -> Result<bool, NoMemory>
    ensures { IfOk result (λ b. b ≡ list_all (λ f. stays_in_fields reads f.body.statements)
        (reached functions.now (name.now ∷ []))) }
{
    let marks = mark_reached(alloc, functions, mark_named(alloc, functions, name)?)?;
    Ok(!any_marked(Asked::Leaves { reads }, functions, marks.as_slice()))
}

/// Whether neither an expression nor a function that it reaches reads memory or a CSR as software,
/// writes the state, jumps or raises. The one refusal is want of memory.
#[tactic(auto, using(crate::proofs::MarkedFunctions::quiet_laws))]
pub fn is_quiet(alloc: Global, functions: &[Function], e: &Expr) -> Result<bool, NoMemory>
    ensures { IfOk result (λ b. b ≡ is_quiet functions.now e.now) }
{
    if any_in_expression(Asked::Loud, e) {
        return Ok(false);
    }
    let marks = mark_reached(alloc, functions, mark_called_by(alloc, functions, e)?)?;
    Ok(!any_marked(Asked::Loud, functions, marks.as_slice()))
}
