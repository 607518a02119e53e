//! Bodies and functions, read from their source.

ghost use Rattle.std.specs.Prelude.{◌≡◌, ◌-◌, ◌^◌, ◌<◌, ◌≤◌, ℕ, List, [], length, IfOk, IfSome, Err};
ghost use Rattle.idl_token.specs.Lexeme.{lexemes};
ghost use Rattle.idl_token.specs.Rows.{IsBadAt};
ghost use Rattle.idl_grammar.specs.StmtReader.{whole_body, whole_functions};
ghost use Rattle.idl_grammar.specs.Faults.{OfBody, OfFunctions};
ghost use Rattle.idl_token.specs.Seen.{symbols};
ghost use Rattle.idl_parse.specs.Parse.{Spells, ReadsOnly, Unexpected, UnexpectedOnly, TooDeep, TooDeepOnly, BadOnly, Tells, Comes, Completes, place_before, fault_by};

use crate::faults::{Halt, ParseFault};
use crate::functions::functions;
use crate::lexing::lex;
use crate::stmts::stmts;
use idl_exprs::{Cursor, Stop};
use idl_fault::{body_stop, functions_stop};
use idl_token::{Seen, Token, see};
use idl_tree::{Body, Functions, Many, Stmts};
use std::alloc::Global;

/// How deep a body that an author writes may nest.
const WRITTEN: u32 = 64;

/// How deep a body that was pruned may nest: pruning adds levels.
const SHOWN: u32 = 512;

// The place of the token with which so many are left, or the source's end where none is.
fn place(source: &str, tokens: &[Token<'_>], left: usize) -> u32
    requires short { length source.now < 2 ^ 32 - 1 }
    requires within { left ≤ length tokens.now }
    ensures { result ≡ place_before source.now (lexemes tokens.now) left }
{
    match tokens.split_at(tokens.len() - left).1 {
        [] => source.len() as u32,
        [token, ..] => token.at,
    }
}

// What is wrong with tokens of which reading within the limit leaves so many, by where reading
// without any limit stops.
fn fault(source: &str, tokens: &[Token<'_>], free: Option<usize>, left: usize) -> ParseFault
    requires short { length source.now < 2 ^ 32 - 1 }
    requires within { left ≤ length tokens.now }
    requires free_within { IfSome free (λ k. k ≤ length tokens.now) }
    ensures { result ≡ fault_by source.now (lexemes tokens.now) free left }
{
    match free {
        None => ParseFault::TooDeep {
            at: place(source, tokens, left),
        },
        Some(free) => ParseFault::Unexpected {
            at: place(source, tokens, free),
        },
    }
}

// What was read, where no token is left behind it; else how many are left from the fault on.
fn complete<T: Drop>(read: Result<(T, u64), Stop>, rest: &[Seen<'_>]) -> Result<T, Halt>
    ensures { Completes read (symbols rest.now) result }
{
    match read {
        Ok((found, _)) => {
            if rest.is_empty() {
                Ok(found)
            } else {
                Err(Halt::Left(rest.len()))
            }
        }
        Err(Stop::Memory) => Err(Halt::Memory),
        Err(Stop::Fault) => Err(Halt::Left(rest.len())),
    }
}

#[tactic(auto, unfolding(idl_grammar::specs::StmtReader::whole_body))]
fn whole_body(alloc: Global, tokens: &[Seen<'_>], limit: u32) -> Result<Stmts, Halt>
    ensures { Comes (whole_body limit (symbols tokens.now)) result }
{
    let mut cursor = Cursor { rest: tokens };
    let read = stmts(alloc, &mut cursor, limit);
    complete(read, cursor.rest)
}

#[tactic(auto, unfolding(idl_grammar::specs::StmtReader::whole_functions))]
fn whole_functions(alloc: Global, tokens: &[Seen<'_>], limit: u32) -> Result<Functions, Halt>
    ensures { Comes (whole_functions limit (symbols tokens.now)) result }
{
    let mut cursor = Cursor { rest: tokens };
    let read = functions(alloc, &mut cursor, limit);
    complete(read, cursor.rest)
}

fn read_body(alloc: Global, source: &str, limit: u32) -> Result<Body, ParseFault>
    requires { length source.now < 2 ^ 32 - 1 }
    ensures bare { IfOk result (λ b. b.variables ≡ []) }
    ensures tells { Tells (λ b. b.statements) OfBody limit source.now result }
{
    let tokens = lex(alloc, source)?;
    let seen = see(alloc, tokens.as_slice())?;
    match whole_body(alloc, seen.as_slice(), limit) {
        Ok(statements) => Ok(Body {
            variables: Many::new(alloc),
            statements,
        }),
        Err(Halt::Memory) => Err(ParseFault::Memory),
        Err(Halt::Left(left)) => {
            let free = body_stop(alloc, seen.as_slice())?;
            Err(fault(source, tokens.as_slice(), free, left))
        }
    }
}

fn read_functions(alloc: Global, source: &str, limit: u32) -> Result<Functions, ParseFault>
    requires { length source.now < 2 ^ 32 - 1 }
    ensures { Tells (λ xs. xs) OfFunctions limit source.now result }
{
    let tokens = lex(alloc, source)?;
    let seen = see(alloc, tokens.as_slice())?;
    match whole_functions(alloc, seen.as_slice(), limit) {
        Ok(found) => Ok(found),
        Err(Halt::Memory) => Err(ParseFault::Memory),
        Err(Halt::Left(left)) => {
            let free = functions_stop(alloc, seen.as_slice())?;
            Err(fault(source, tokens.as_slice(), free, left))
        }
    }
}

/// The body that a source spells, without variables.
///
/// `docs/formats/language.md` has the grammar and says what nesting is. A body nests at most 64
/// levels.
pub fn parse_body(alloc: Global, source: &str) -> Result<Body, ParseFault>
    requires { length source.now < 2 ^ 32 - 1 }
    ensures bare { IfOk result (λ b. b.variables ≡ []) }
    ensures found { IfOk result (λ b. Spells OfBody 64 source.now b.statements) }
    ensures only { ReadsOnly (λ b. b.statements) OfBody 64 source.now result }
    ensures bad { (at : ℕ) → result ≡ Err (ParseFault.BadToken at) → IsBadAt source.now at }
    ensures bad_only { BadOnly source.now result }
    ensures unexpected { Unexpected OfBody source.now result }
    ensures unexpected_only { UnexpectedOnly OfBody source.now result }
    ensures deep { TooDeep OfBody 64 source.now result }
    ensures deep_only { TooDeepOnly OfBody 64 source.now result }
{
    read_body(alloc, source, WRITTEN)
}

/// The functions that a source spells, whose bodies have no variables and which nest at most 64
/// levels.
pub fn parse_functions(alloc: Global, source: &str) -> Result<Functions, ParseFault>
    requires { length source.now < 2 ^ 32 - 1 }
    ensures found { IfOk result (Spells OfFunctions 64 source.now) }
    ensures only { ReadsOnly (λ xs. xs) OfFunctions 64 source.now result }
    ensures bad { (at : ℕ) → result ≡ Err (ParseFault.BadToken at) → IsBadAt source.now at }
    ensures bad_only { BadOnly source.now result }
    ensures unexpected { Unexpected OfFunctions source.now result }
    ensures unexpected_only { UnexpectedOnly OfFunctions source.now result }
    ensures deep { TooDeep OfFunctions 64 source.now result }
    ensures deep_only { TooDeepOnly OfFunctions 64 source.now result }
{
    read_functions(alloc, source, WRITTEN)
}

/// The same as [`parse_body`] for the text of a pruned body, which nests at most 512 levels:
/// pruning adds braces and widths.
pub fn parse_shown(alloc: Global, source: &str) -> Result<Body, ParseFault>
    requires { length source.now < 2 ^ 32 - 1 }
    ensures bare { IfOk result (λ b. b.variables ≡ []) }
    ensures found { IfOk result (λ b. Spells OfBody 512 source.now b.statements) }
    ensures only { ReadsOnly (λ b. b.statements) OfBody 512 source.now result }
    ensures bad { (at : ℕ) → result ≡ Err (ParseFault.BadToken at) → IsBadAt source.now at }
    ensures bad_only { BadOnly source.now result }
    ensures unexpected { Unexpected OfBody source.now result }
    ensures unexpected_only { UnexpectedOnly OfBody source.now result }
    ensures deep { TooDeep OfBody 512 source.now result }
    ensures deep_only { TooDeepOnly OfBody 512 source.now result }
{
    read_body(alloc, source, SHOWN)
}

/// The same as [`parse_functions`] for the text of pruned functions, which nest at most 512 levels.
pub fn parse_shown_functions(alloc: Global, source: &str) -> Result<Functions, ParseFault>
    requires { length source.now < 2 ^ 32 - 1 }
    ensures found { IfOk result (Spells OfFunctions 512 source.now) }
    ensures only { ReadsOnly (λ xs. xs) OfFunctions 512 source.now result }
    ensures bad { (at : ℕ) → result ≡ Err (ParseFault.BadToken at) → IsBadAt source.now at }
    ensures bad_only { BadOnly source.now result }
    ensures unexpected { Unexpected OfFunctions source.now result }
    ensures unexpected_only { UnexpectedOnly OfFunctions source.now result }
    ensures deep { TooDeep OfFunctions 512 source.now result }
    ensures deep_only { TooDeepOnly OfFunctions 512 source.now result }
{
    read_functions(alloc, source, SHOWN)
}
