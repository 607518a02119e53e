//! Laws of the types of the ISA Description Language: what passes its checks is never stuck.
#![tactic(auto)]

ghost use Rattle.type_laws.specs.Fitting.{FittingBodiesAreNeverStuck};
ghost use Rattle.type_laws.specs.Laws.{ExpressionsAreSound};

/// The law of expressions: at any place where the checks of an expression pass, it has a kind, and
/// wherever the place is reached its meaning is not stuck, keeps the state, and has a value of that
/// kind. The functions that it calls and the writes of software are taken to be good.
pub fn expressions_are_sound()
    ensures { ExpressionsAreSound }
{}

/// The law of typing: where a program fits a valid full configuration, an operation that fits it and
/// a function with values that suit its arguments are never stuck, from any state of it; and each
/// field that is present has a type, a number at reset, and a number when software writes it. The
/// space, the program and the operation are taken to be as readers give them.
pub fn fitting_bodies_are_never_stuck()
    ensures { FittingBodiesAreNeverStuck }
{}
