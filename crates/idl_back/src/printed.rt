//! The round trip: what is printed of a body, or of functions, that were read reads as them again.

ghost use Rattle.std.specs.Prelude.{◌≡◌, ℕ, List};
ghost use Rattle.std.specs.List.{flat_map};
ghost use Rattle.idl_token.specs.Lexeme.{Lexeme};
ghost use Rattle.idl_token.specs.Rows.{IsRow};
ghost use Rattle.idl_tree.specs.declared.statements.Stmt.{Stmt};
ghost use Rattle.idl_tree.specs.declared.programs.Function.{Function};
ghost use Rattle.udb_base.specs.Lines.{text_of_lines};
ghost use Rattle.idl_tree.specs.Print.{stmt_lines};
ghost use Rattle.idl_tree.specs.PrintFunctions.{functions_text};
ghost use Rattle.idl_token.specs.Symbol.{symbols};
ghost use Rattle.idl_grammar.specs.Faults.{OfBody, OfFunctions, ReadsWithin};

/// Where the tokens of a source read as the statements of a body, what is printed of these
/// statements is a row of tokens too, and reads as the same statements with no higher nesting: so
/// a parser gives them back within the limit that the source was read in. Only the spelling differs:
/// parentheses, line breaks and the bases of numbers; `else if` is printed as an `if` in a block,
/// `xlen()` and `XReg` by the parameter that they stand for.
pub fn printed_body_reads()
    ensures { (source : List ℕ) (ts : List Lexeme) (h : ℕ) (xs : List Stmt)
        → IsRow source ts → OfBody h (symbols ts) xs
        → (us : List Lexeme) × IsRow (text_of_lines (flat_map stmt_lines xs)) us
        × ReadsWithin OfBody h (symbols us) xs }
{}

/// The same of functions. Their descriptions aren't printed, as the trees have none.
pub fn printed_functions_read()
    ensures { (source : List ℕ) (ts : List Lexeme) (h : ℕ) (xs : List Function)
        → IsRow source ts → OfFunctions h (symbols ts) xs
        → (us : List Lexeme) × IsRow (functions_text xs) us × ReadsWithin OfFunctions h (symbols us) xs }
{}
