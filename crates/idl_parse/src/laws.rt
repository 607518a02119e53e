//! What holds of every source.

ghost use Rattle.std.specs.List.{flat_map};
ghost use Rattle.udb_base.specs.Lines.{text_of_lines};
ghost use Rattle.idl_tree.specs.Print.{stmt_lines};
ghost use Rattle.idl_tree.specs.PrintFunctions.{functions_text};
ghost use Rattle.idl_grammar.specs.Faults.{OfBody, OfFunctions};
ghost use Rattle.idl_parse.specs.Parse.{SpellsOne, AnswersOne, AnswersSome, ReadsBack};

/// Within any limit of nesting a source has one answer and only one: a body, or one fault at one
/// place; and it has the same body within every limit that suffices. The same of functions. These
/// are laws on the definitions, so they hold also where memory is short.
pub fn one_answer()
    ensures body { SpellsOne OfBody }
    ensures body_one { AnswersOne OfBody }
    ensures body_some { AnswersSome OfBody }
    ensures functions { SpellsOne OfFunctions }
    ensures functions_one { AnswersOne OfFunctions }
    ensures functions_some { AnswersSome OfFunctions }
{}

/// What is printed of statements, or of functions, that a source spells is a source that spells them
/// too, within the same limit of nesting: so `parse_body` and `parse_functions` give back what
/// `idl_tree` prints of what they read, and `parse_shown` and `parse_shown_functions` of what is
/// deeper. These are laws on the definitions.
pub fn printed_text_reads_back()
    ensures body { ReadsBack OfBody (λ xs. text_of_lines (flat_map stmt_lines xs)) }
    ensures functions { ReadsBack OfFunctions functions_text }
{}
