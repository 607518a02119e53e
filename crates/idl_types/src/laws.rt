//! The laws of typing: of programs all of whose bodies are typed, and of formulas.

ghost use Rattle.idl_types.specs.Typing.{FormulasAreTrue, TypedBodiesAreNeverStuck};

use type_laws::fitting_bodies_are_never_stuck;

/// The law of typing: where an operation, and every body of a function and a field of its program,
/// has no fault, none of them is ever stuck, in any valid full configuration in which it is present,
/// from any state of it. The space, the program and the operation are taken to be as readers give
/// them.
pub fn typed_bodies_are_never_stuck()
    ensures { TypedBodiesAreNeverStuck }
{
    fitting_bodies_are_never_stuck();
}

/// The law of formulas: the condition that `as_formula` gives of an expression holds in a valid full
/// configuration exactly where the expression is true in it, whenever it has a truth value, in a
/// scope whose names are no parameters.
pub fn formulas_are_true()
    ensures { FormulasAreTrue }
{}
