//! What holds of every row of tokens.

ghost use Rattle.idl_grammar.specs.StmtReader.{whole_body, whole_functions};
ghost use Rattle.idl_grammar.specs.Faults.{OfBody, OfFunctions, IsUnambiguous, IsSound, IsComplete, FaultsWithin, FaultsFree, FaultsAtToken};

/// A row of tokens reads as at most one body, and as at most one list of functions. These are laws
/// on the definitions, so they hold also where memory is short.
pub fn one_tree()
    ensures body { IsUnambiguous OfBody }
    ensures functions { IsUnambiguous OfFunctions }
{}

/// What is read as a body within a limit reads so within it, and what reads so is read.
pub fn body_readings()
    ensures told { IsSound OfBody whole_body }
    ensures again { IsComplete OfBody whole_body }
{}

/// A fault of the reader of bodies is at the first token, or the end, at which nothing within the
/// limit goes on; with a limit of the number of tokens and two at the first at which nothing goes
/// on at all. Where the tokens read with a higher nesting, the fault is at a token.
pub fn body_faults()
    ensures within { FaultsWithin OfBody whole_body }
    ensures free { FaultsFree OfBody whole_body }
    ensures deep { FaultsAtToken whole_body }
{}

/// The same of functions.
pub fn function_readings()
    ensures told { IsSound OfFunctions whole_functions }
    ensures again { IsComplete OfFunctions whole_functions }
{}

/// The same of functions.
pub fn function_faults()
    ensures within { FaultsWithin OfFunctions whole_functions }
    ensures free { FaultsFree OfFunctions whole_functions }
    ensures deep { FaultsAtToken whole_functions }
{}
