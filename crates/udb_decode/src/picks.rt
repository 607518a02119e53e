//! The names that a word can mean, one after another.

ghost use Rattle.std.specs.Prelude.{◌≡◌, false};
ghost use Rattle.std.specs.Iterator.{YieldsFirstRef, item_count};
ghost use Rattle.udb_decode.specs.Kept.{begins_with, names_from, names_left};

use crate::decoder::Kept;
use udb_base::Name;

/// The names that a word can mean, in the order of their bytes, each once.
#[derive(Drop)]
pub struct Picks<'a> {
    word: u32,
    rest: &'a [Kept],
}

fn begins_with(rest: &[Kept], name: &Name) -> bool
    ensures { result ≡ begins_with name.now rest.now }
{
    match rest.first() {
        Some(next) => next.name == *name,
        None => false,
    }
}

impl<'a> Picks<'a> {
    pub(crate) fn over(word: u32, rest: &'a [Kept]) -> Picks<'a>
        ensures { names_left result ≡ names_from word false rest.now }
    {
        Picks { word, rest }
    }
}

impl<'a> Iterator for Picks<'a> {
    type Item = &'a Name;

    ghost next_gives = { YieldsFirstRef names_left };

    ghost remaining = { item_count names_left };

    fn next(&mut self) -> Option<&'a Name> {
        let mut found = false;
        while let Some((first, others)) = self.rest.split_first() {
            self.rest = others;
            found = found || first.pattern.matches(self.word);
            if found && !begins_with(others, &first.name) {
                return Some(&first.name);
            }
        }
        None
    }
}
