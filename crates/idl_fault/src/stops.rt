//! The error position, without a limit of nesting.

ghost use Rattle.std.specs.Prelude.{◌≡◌, ◌+◌, length, IfOk, option_map};
ghost use Rattle.idl_grammar.specs.StmtReader.{whole_body, whole_functions};
ghost use Rattle.idl_fault.specs.Verdict.{left_at};
ghost use Rattle.idl_token.specs.Seen.{symbols};
ghost use Rattle.idl_fault.specs.Views.{verdict_by};

use crate::items::STMTS;
use crate::parts::FunctionPart::Functions;
use crate::parts::Item;
use crate::turns::run;
use idl_token::Seen;
use std::alloc::Global;
use udb_base::NoMemory;

#[tactic(auto, using(crate::proofs::Stacks::seen_length))]
fn left(end: Option<&[Seen<'_>]>) -> Option<usize>
    ensures { result ≡ left_at (verdict_by (option_map (λ t. t.now) end.entry)) }
{
    match end {
        None => None,
        Some(rest) => Some(rest.len()),
    }
}

/// The error position of a body, without any limit of nesting: how many of the tokens are left from the
/// fault on, or none where all of them are a body. The fault is at the first token, or at the end (0
/// left), at which no body goes on.
///
/// The stack is on the heap: a source that only opens parentheses takes memory in proportion to its
/// length, and no depth of calls. The one other answer is want of memory.
pub fn body_stop(alloc: Global, tokens: &[Seen<'_>]) -> Result<Option<usize>, NoMemory>
    ensures { IfOk result (λ r. r
        ≡ left_at (whole_body (length tokens.now + 2) (symbols tokens.now))) }
{
    Ok(left(run(alloc, STMTS, tokens)?))
}

/// The error position of a text of functions; otherwise as `body_stop`.
pub fn functions_stop(alloc: Global, tokens: &[Seen<'_>]) -> Result<Option<usize>, NoMemory>
    ensures { IfOk result (λ r. r
        ≡ left_at (whole_functions (length tokens.now + 2) (symbols tokens.now))) }
{
    Ok(left(run(alloc, Item::Function(Functions), tokens)?))
}
