//! Words, and what follows a first word.

ghost use Rattle.std.specs.Prelude.{◌≡◌, ◌∷◌, [], IfOk, OnErr, MatchOption};
ghost use Rattle.udb_command.specs.Words.{words_of, IsArgument};
ghost use Rattle.udb_command.specs.Questions.{IsOtherWords, IsOtherRow};

use std::alloc::{AllocError, Global};
use udb_base::{Name, NameFault, NoMemory, name};

/// The name that a word gives, where it gives one. Memory is asked for such a word alone.
pub fn argument_of(alloc: Global, word: &str) -> Result<Option<Name>, NoMemory>
    ensures answer { IfOk result (λ argument. MatchOption argument (¬ (IsArgument word.now))
        (λ name. (name ≡ word.now) × IsArgument word.now)) }
    ensures memory { OnErr result (IsArgument word.now) }
{
    if let [b'-', ..] = word.as_bytes() {
        return Ok(None);
    }
    match name(alloc, word) {
        Ok(name) => Ok(Some(name)),
        Err(NameFault::BadName) => Ok(None),
        Err(NameFault::Memory) => Err(AllocError),
    }
}

/// The one word that follows a first word.
pub fn word_after<'w>(words: &'w [String], first: &str) -> Option<&'w str>
    ensures { MatchOption result (IsOtherWords (words_of words.now) first.now)
        (λ word. words_of words.now ≡ first.now ∷ word.now ∷ []) }
{
    match words {
        [command, argument] => {
            if command.as_str() == first {
                Some(argument.as_str())
            } else {
                None
            }
        }
        _ => None,
    }
}

/// The three words that follow a first word.
pub fn three_after<'w>(words: &'w [String], first: &str) -> Option<(&'w str, &'w str, &'w str)>
    ensures { MatchOption result (IsOtherRow (words_of words.now) first.now)
        (λ row. words_of words.now ≡ first.now ∷ row.0.now ∷ row.1.now ∷ row.2.now ∷ []) }
{
    match words {
        [command, second, third, fourth] => {
            if command.as_str() == first {
                Some((second.as_str(), third.as_str(), fourth.as_str()))
            } else {
                None
            }
        }
        _ => None,
    }
}
