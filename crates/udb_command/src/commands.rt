//! Commands and the words that ask for them.

ghost use Rattle.std.specs.Prelude.{◌≡◌, IfOk, OnErr, MatchOption, codes};
ghost use Rattle.udb_command.specs.Words.{words_of, Asks, IsCommand, IsNoCommand, AsksForOne};
ghost use Rattle.udb_command.specs.Questions.{IsNoManual, IsNoQuestion};

use crate::questions::{Question, question_of};
use crate::words::{argument_of, word_after};
use std::alloc::{AllocError, Global};
use udb_base::{Kind, Name, NoMemory};

/// What the program is asked for.
#[derive(Debug, Drop)]
pub enum Command {
    /// Print the manual of a configuration.
    Manual {
        config: Name,
    },
    /// Find a completion of a configuration that has an entry, or a proof that none has it.
    Refute {
        config: Name,
        kind: Kind,
        name: Name,
    },
    /// Check a proof that no completion of a configuration has an entry.
    CheckProof {
        config: Name,
        kind: Kind,
        name: Name,
    },
}

// The manual that the words ask for.
fn manual_of(alloc: Global, words: &[String]) -> Result<Option<Command>, NoMemory>
    ensures answer { IfOk result (λ command. MatchOption command
        (IsNoManual (words_of words.now)) (Asks (words_of words.now))) }
    ensures memory { OnErr result (IsCommand (words_of words.now)) }
{
    match word_after(words, "manual") {
        None => Ok(None),
        Some(word) => match argument_of(alloc, word) {
            Ok(Some(config)) => Ok(Some(Command::Manual { config })),
            Ok(None) => Ok(None),
            Err(_) => Err(AllocError),
        },
    }
}

// The search that the words ask for.
fn refute_of(alloc: Global, words: &[String]) -> Result<Option<Command>, NoMemory>
    ensures answer { IfOk result (λ command. MatchOption command
        (IsNoQuestion (words_of words.now) (codes "refute")) (Asks (words_of words.now))) }
    ensures memory { OnErr result (IsCommand (words_of words.now)) }
{
    match question_of(alloc, words, "refute") {
        Ok(Some(Question { config, kind, name })) => {
            Ok(Some(Command::Refute { config, kind, name }))
        }
        Ok(None) => Ok(None),
        Err(_) => Err(AllocError),
    }
}

// The check of a proof that the words ask for.
fn check_of(alloc: Global, words: &[String]) -> Result<Option<Command>, NoMemory>
    ensures answer { IfOk result (λ command. MatchOption command
        (IsNoQuestion (words_of words.now) (codes "check-proof")) (Asks (words_of words.now))) }
    ensures memory { OnErr result (IsCommand (words_of words.now)) }
{
    match question_of(alloc, words, "check-proof") {
        Ok(Some(Question { config, kind, name })) => {
            Ok(Some(Command::CheckProof { config, kind, name }))
        }
        Ok(None) => Ok(None),
        Err(_) => Err(AllocError),
    }
}

/// The command that the words ask for; they are those after the program's name. Words that ask for
/// none take no memory.
pub fn command_of(alloc: Global, words: &[String]) -> Result<Option<Command>, NoMemory>
    ensures answer { IfOk result (λ command. MatchOption command
        (IsNoCommand (words_of words.now)) (Asks (words_of words.now))) }
    ensures memory { OnErr result (IsCommand (words_of words.now)) }
{
    match manual_of(alloc, words) {
        Ok(Some(command)) => Ok(Some(command)),
        Ok(None) => match refute_of(alloc, words) {
            Ok(Some(command)) => Ok(Some(command)),
            Ok(None) => match check_of(alloc, words) {
                Ok(Some(command)) => Ok(Some(command)),
                Ok(None) => Ok(None),
                Err(_) => Err(AllocError),
            },
            Err(_) => Err(AllocError),
        },
        Err(_) => Err(AllocError),
    }
}

/// Words ask for at most one command. This is a law on the definitions.
pub fn one_command()
    ensures { AsksForOne }
{}
