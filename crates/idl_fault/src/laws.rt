//! What the recogniser comes to.

ghost use Rattle.std.specs.Prelude.{◌≡◌, ◌+◌, List, [], ◌∷◌, Bool, length};
ghost use Rattle.idl_token.specs.Symbol.{Symbol};
ghost use Rattle.idl_grammar.specs.StmtReader.{whole_body, whole_functions};
ghost use Rattle.idl_fault.specs.Machine.{Frame, Runs, Verdict, frames, stmts, functions};
ghost use Rattle.idl_fault.specs.Verdict.{verdict};

/// The recogniser comes to one verdict, whatever is on its stack, and from a body or from functions to
/// what the grammar's readers come to with a limit of the number of tokens and two, which is as good
/// as none. These are laws on the definitions, so they hold also where memory is short.
pub fn machine_reads()
    ensures body { (b : Bool) (ts : List Symbol)
        → Runs (frames (stmts ∷ [])) b ts (verdict (whole_body (length ts + 2) ts)) }
    ensures functions { (b : Bool) (ts : List Symbol)
        → Runs (frames (functions ∷ [])) b ts (verdict (whole_functions (length ts + 2) ts)) }
    ensures one { (k : List Frame) (b : Bool) (ts : List Symbol) (v w : Verdict)
        → Runs k b ts v → Runs k b ts w → v ≡ w }
{}
