//! Reads sources, one a line, and prints each with its tokens, and with where a body and a text of
//! functions stop.
//!
//! In a line `\n`, `\r` and `\t` are a line feed, a carriage return and a tab, and `\` before any
//! other character is that character. A token is printed as its kind, its text, what it says beside
//! that, and the place of its first byte, from 0. A place where reading stops is that of the first
//! token at which no body, or no function, goes on, or the source's length.
//!
//! A line `@ N A B` is the source A with B behind it N times, of whose tokens only the number is
//! printed.
#![tactic(auto)]

ghost use Rattle.std.specs.Prelude.{All};
ghost use Rattle.idl_token.specs.Lexeme.{lexemes};
ghost use Rattle.idl_token.specs.Values.{IsSpelledToken};

use case_text::{line_of, text_of};
use idl_fault::{body_stop, functions_stop};
use idl_token::{LexFault, Seen, Token, TokenKind, lex, see};
use std::alloc::{AllocError, Global};
use std::io;

/// No source is longer.
const LONGEST: usize = 1_000_000;

/// A source, and whether its tokens are printed.
#[derive(Drop)]
struct Case {
    source: String,
    lists: bool,
}

fn kind_of(kind: TokenKind) -> &'static str {
    match kind {
        TokenKind::Word => "word",
        TokenKind::Reserved(_) => "reserved",
        TokenKind::Special(_) => "special",
        TokenKind::Number => "number",
        TokenKind::Sized => "sized",
        TokenKind::Text => "text",
        TokenKind::Description => "description",
        TokenKind::Sign(_) => "sign",
    }
}

fn sign_of(signed: bool) -> &'static str {
    if signed { "signed" } else { "unsigned" }
}

// What a token says beside its text.
fn value_of(alloc: Global, seen: Seen<'_>) -> Result<String, AllocError> {
    match seen {
        Seen::Number(value) => format!(in alloc; " = {value}"),
        Seen::SizedNumber {
            width,
            signed,
            value,
        } => format!(in alloc; " = {} {value} of {width} bits", sign_of(signed)),
        Seen::SizedWord {
            width,
            signed,
            value,
        } => format!(in alloc; " = {} {value} of {width} bits", sign_of(signed)),
        Seen::Quoted(text) => format!(in alloc; " = {}", line_of(alloc, text)?),
        _ => "".to_string(alloc),
    }
}

fn push_token(
    alloc: Global,
    out: &mut String,
    token: &Token<'_>,
    seen: Seen<'_>,
) -> Result<(), AllocError> {
    let kind = kind_of(token.kind);
    let text = line_of(alloc, token.text)?;
    let value = value_of(alloc, seen)?;
    let at = token.at;
    let piece = format!(in alloc; "\n    {kind} {text}{value} @{at}")?;
    out.push_str(piece.as_str())
}

// The place of the token from which so many are left.
fn place(source: &str, tokens: &[Token<'_>], left: usize) -> usize {
    if left == 0 || tokens.len() < left {
        source.len()
    } else {
        tokens[tokens.len() - left].at as usize
    }
}

fn push_stop(
    alloc: Global,
    out: &mut String,
    what: &str,
    stop: Option<usize>,
) -> Result<(), AllocError> {
    let piece = match stop {
        None => format!(in alloc; "\n    {what}: whole")?,
        Some(at) => format!(in alloc; "\n    {what}: stops at {at}")?,
    };
    out.push_str(piece.as_str())
}

fn stop_of(source: &str, tokens: &[Token<'_>], left: Option<usize>) -> Option<usize> {
    match left {
        None => None,
        Some(left) => Some(place(source, tokens, left)),
    }
}

fn push_tokens(
    alloc: Global,
    out: &mut String,
    tokens: &[Token<'_>],
    seen: &[Seen<'_>],
) -> Result<(), AllocError> {
    for (token, value) in tokens.iter().zip(seen.iter()) {
        push_token(alloc, out, token, *value)?;
    }
    Ok(())
}

fn of_tokens(alloc: Global, case: &Case, tokens: &[Token<'_>]) -> Result<String, AllocError>
    requires { All IsSpelledToken (lexemes tokens.now) }
{
    let source = case.source.as_str();
    let mut out = String::new(alloc);
    let seen = see(alloc, tokens)?;
    if case.lists {
        push_tokens(alloc, &mut out, tokens, &seen)?;
    } else {
        out = format!(in alloc; "\n    {} tokens", tokens.len())?;
    }
    let body = body_stop(alloc, &seen)?;
    push_stop(alloc, &mut out, "body", stop_of(source, tokens, body))?;
    let functions = functions_stop(alloc, &seen)?;
    push_stop(
        alloc,
        &mut out,
        "functions",
        stop_of(source, tokens, functions),
    )?;
    Ok(out)
}

fn answer_of(alloc: Global, case: &Case) -> Result<String, AllocError> {
    let source = case.source.as_str();
    if source.len() > LONGEST {
        return "\n    too long".to_string(alloc);
    }
    match lex(alloc, source) {
        Ok(tokens) => of_tokens(alloc, case, &tokens),
        Err(LexFault::BadToken { at }) => format!(in alloc; "\n    bad token at {at}"),
        Err(LexFault::Memory) => Err(AllocError),
    }
}

fn repeat(alloc: Global, times: &str, first: &str, again: &str) -> Result<String, AllocError> {
    let mut source = text_of(alloc, first)?;
    let more = text_of(alloc, again)?;
    for _ in 0..times.parse::<u32>().unwrap_or(0) {
        source.push_str(more.as_str())?;
    }
    Ok(source)
}

fn case_of(alloc: Global, line: &str) -> Result<Case, AllocError> {
    let words: Vec<&str> = line.split_whitespace().collect(alloc)?;
    match *words.as_slice() {
        ["@", times, first, again] => Ok(Case {
            source: repeat(alloc, times, first, again)?,
            lists: false,
        }),
        _ => Ok(Case {
            source: text_of(alloc, line)?,
            lists: true,
        }),
    }
}

fn main(rt: HostRuntime) -> io::Result<()> {
    for line in rt.lines(rt.alloc()) {
        let line = line?;
        let case = case_of(rt.alloc(), line.as_str())?;
        let told = answer_of(rt.alloc(), &case)?;
        println!(rt; "{line}{told}")?;
    }
    Ok(())
}
