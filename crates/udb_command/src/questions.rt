//! What a search is asked: a configuration, and the entry of it that is asked about.

ghost use Rattle.std.specs.Prelude.{◌≡◌, ◌↔◌, IsTrue, IfOk, OnErr, MatchOption};
ghost use Rattle.udb_command.specs.Words.{words_of, IsArgument, AsksAbout, AreArguments};
ghost use Rattle.udb_command.specs.Questions.{kind_of, Asking, IsQuestion, IsNoQuestion};

use crate::words::{argument_of, three_after};
use std::alloc::{AllocError, Global};
use udb_base::{Kind, Name, NoMemory};

/// A question about an entry of a configuration.
#[derive(Debug, Drop)]
pub struct Question {
    pub config: Name,
    pub kind: Kind,
    pub name: Name,
}

// The kind that a word names, of those that are asked about.
fn kind_of(word: &str) -> Option<Kind>
    ensures { result ≡ kind_of word.now }
{
    match word {
        "extension" => Some(Kind::Extension),
        "parameter" => Some(Kind::Parameter),
        "instruction" => Some(Kind::Instruction),
        "csr" => Some(Kind::Csr),
        "config" => Some(Kind::Config),
        _ => None,
    }
}

fn is_about(config: &str, kind: Kind, name: &str) -> bool
    ensures { IsTrue result ↔ AsksAbout config.now kind name.now }
{
    match kind {
        Kind::Extension | Kind::Parameter | Kind::Instruction | Kind::Csr => true,
        Kind::Functions => false,
        Kind::Config => name == config,
    }
}

// The names that two words give, where both give one. Memory is asked for such words alone.
fn names_of(alloc: Global, first: &str, second: &str) -> Result<Option<(Name, Name)>, NoMemory>
    ensures answer { IfOk result (λ names. MatchOption names
        (¬ (IsArgument first.now × IsArgument second.now))
        (λ names. (names.0 ≡ first.now) × (names.1 ≡ second.now)
        × IsArgument first.now × IsArgument second.now)) }
    ensures memory { OnErr result (IsArgument first.now × IsArgument second.now) }
{
    match argument_of(alloc, first) {
        Ok(None) => Ok(None),
        Ok(Some(first)) => match argument_of(alloc, second) {
            Ok(None) => Ok(None),
            Ok(Some(second)) => Ok(Some((first, second))),
            Err(_) => Err(AllocError),
        },
        Err(_) => match argument_of(alloc, second) {
            Ok(None) => Ok(None),
            _ => Err(AllocError),
        },
    }
}

// The question with these parts, where they are one.
fn question_with(
    alloc: Global,
    config: &str,
    kind: Kind,
    name: &str,
) -> Result<Option<Question>, NoMemory>
    ensures answer { IfOk result (λ question. MatchOption question
        (¬ (AreArguments config.now kind name.now))
        (λ question. (question.config ≡ config.now) × (question.kind ≡ kind)
        × (question.name ≡ name.now) × AreArguments config.now kind name.now)) }
    ensures memory { OnErr result (AreArguments config.now kind name.now) }
{
    if !is_about(config, kind, name) {
        return Ok(None);
    }
    match names_of(alloc, config, name) {
        Ok(Some((config, name))) => Ok(Some(Question { config, kind, name })),
        Ok(None) => Ok(None),
        Err(_) => Err(AllocError),
    }
}

/// The question that words ask behind a first word. Words that ask none take no memory.
pub fn question_of(
    alloc: Global,
    words: &[String],
    first: &str,
) -> Result<Option<Question>, NoMemory>
    ensures answer { IfOk result (λ question. MatchOption question
        (IsNoQuestion (words_of words.now) first.now)
        (Asking (words_of words.now) first.now)) }
    ensures memory { OnErr result (IsQuestion (words_of words.now) first.now) }
{
    match three_after(words, first) {
        None => Ok(None),
        Some((config, word, name)) => match kind_of(word) {
            None => Ok(None),
            Some(kind) => question_with(alloc, config, kind, name),
        },
    }
}
