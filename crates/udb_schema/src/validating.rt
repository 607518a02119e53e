//! The first place at which a tree doesn't meet a schema.

ghost use Rattle.std.specs.Prelude.{◌≡◌, ◌≢◌, ◌++◌, ◌∷◌, [], ℕ, List, map, if◌then◌else◌, true, false, IfOk, IfErr, OnOk, IsOk};
ghost use Rattle.std.specs.Fmt.{decimal};
ghost use Rattle.std.specs.List.{list_all, flat_map};
ghost use Rattle.udb_schema.specs.Meets.{meets, named};
ghost use Rattle.udb_schema.specs.Faults as spec;
ghost use Rattle.udb_schema.specs.Validating.{behind, Gains, given_for_key, all_for_key, failing_in};
ghost use Rattle.udb_schema.specs.Validating.{items_meet, entry_meets, InEntry, IsUnder, OnFault, IsNamed};
ghost use Rattle.udb_schema.specs.declared.validating.SchemaFault.TheVariants as faults;

use crate::meeting::{is_named, word_is_met};
use crate::words::{Additional, Schema, SchemaProperty, SchemaWord, Word};
use std::alloc::{AllocError, Global};
use udb_base::{Chars, NoMemory};
use yaml_spec::{Pair, Tree};

/// Why a tree isn't taken.
#[derive(Drop)]
pub enum SchemaFault {
    /// There was no memory.
    Memory,
    /// The word fails at this place: `/` before each key or place from the root down, where the
    /// places of a list's items count from 0. The root's path is empty.
    At { path: Chars, word: Word },
}

impl From<AllocError> for SchemaFault {
    ghost use Rattle.std.specs.Prelude.{◌≡◌};
    ghost use Rattle.udb_schema.specs.declared.validating.SchemaFault.TheVariants.{Memory};

    ghost from_gives = { λ _ e. e ≡ Memory };

    fn from(_: AllocError) -> SchemaFault {
        SchemaFault::Memory
    }
}

/// The place of a word in the order of examination, from 0.
fn place_of(word: Word) -> u8
    ensures { result ≡ spec.place_of word }
{
    word as u8
}

#[tactic(auto, using(crate::proofs::WordLaws::word_layers), unfolding(crate::specs::Faults::word_of))]
fn word_of(word: &SchemaWord) -> Word
    ensures { result ≡ spec.word_of word.now }
{
    match word {
        SchemaWord::Type(_) => Word::Type,
        SchemaWord::Enum(_) => Word::Enum,
        SchemaWord::Const(_) => Word::Const,
        SchemaWord::Minimum(_) => Word::Minimum,
        SchemaWord::Maximum(_) => Word::Maximum,
        SchemaWord::MinLength(_) => Word::MinLength,
        SchemaWord::MinItems(_) => Word::MinItems,
        SchemaWord::MaxItems(_) => Word::MaxItems,
        SchemaWord::UniqueItems(_) => Word::UniqueItems,
        SchemaWord::MinProperties(_) => Word::MinProperties,
        SchemaWord::MaxProperties(_) => Word::MaxProperties,
        SchemaWord::Required(_) => Word::Required,
        SchemaWord::AdditionalProperties(_) => Word::AdditionalProperties,
        SchemaWord::Properties(_) => Word::Properties,
        SchemaWord::Items(_) => Word::Items,
        SchemaWord::AllOf(_) => Word::AllOf,
        SchemaWord::AnyOf(_) => Word::AnyOf,
        SchemaWord::OneOf(_) => Word::OneOf,
        SchemaWord::Not(_) => Word::Not,
    }
}

#[tactic(auto, using(crate::proofs::WordLaws::closed_laws))]
fn is_closed(additional: &Additional) -> bool
    ensures { result ≡ spec.is_closed additional.now }
{
    match additional {
        Additional::Closed => true,
        Additional::Meets(_) => false,
    }
}

/// Whether a failure of the word counts at its own node, and not at a child.
#[tactic(auto, using(crate::proofs::WordLaws::word_layers), unfolding(crate::specs::Faults::counts_here))]
fn counts_here(word: &SchemaWord) -> bool
    ensures { result ≡ spec.counts_here word.now }
{
    match word {
        SchemaWord::AdditionalProperties(additional) => is_closed(additional),
        SchemaWord::Properties(_) => false,
        SchemaWord::Items(_) => false,
        _ => true,
    }
}

/// Of a word and of another, the one that is examined first.
fn earlier(first: Option<Word>, word: Word) -> Option<Word>
    ensures { result ≡ spec.earlier first word }
{
    match first {
        Some(other) => {
            if place_of(other) <= place_of(word) {
                Some(other)
            } else {
                Some(word)
            }
        }
        None => Some(word),
    }
}

fn fails(word: &SchemaWord, words: &[SchemaWord], tree: &Tree) -> bool
    ensures { result ≡ spec.fails (named words.now) tree.now word.now }
{
    counts_here(word) && !word_is_met(word, words, tree)
}

/// The word that is examined first of one and of those that fail at the node.
fn earliest_in(first: Option<Word>, words: &[SchemaWord], tree: &Tree) -> Option<Word>
    ensures { result ≡ spec.earliest first (failing_in words.now tree.now) }
{
    let mut least = first;
    for word in words {
        if fails(word, words, tree) {
            least = earlier(least, word_of(word));
        }
    }
    least
}

/// The first word that fails at the node itself.
#[tactic(auto, using(crate::proofs::WordLaws::earliest_steps))]
fn first_failing(schemas: &[&Schema], tree: &Tree) -> Option<Word>
    ensures { result ≡ spec.first_failing (behind schemas.now) tree.now }
{
    let mut least = None;
    for schema in schemas {
        least = earliest_in(least, schema.words.as_slice(), tree);
    }
    least
}

fn push_one<'a>(into: &mut Vec<&'a Schema>, schema: &'a Schema) -> Result<(), NoMemory>
    ensures { OnOk result (Gains into.old into.new (schema.now ∷ [])) }
{
    into.push(schema)?;
    Ok(())
}

#[tactic(auto, using(crate::proofs::WordLaws::items_steps))]
fn push_for_items<'a>(into: &mut Vec<&'a Schema>, word: &'a SchemaWord) -> Result<(), NoMemory>
    ensures { OnOk result (Gains into.old into.new (spec.word_for_items word.now)) }
{
    match word {
        SchemaWord::Items(schema) => push_one(into, schema),
        _ => Ok(()),
    }
}

fn push_each_for_items<'a>(
    into: &mut Vec<&'a Schema>,
    words: &'a [SchemaWord],
) -> Result<(), NoMemory>
    ensures { OnOk result (Gains into.old into.new (flat_map spec.word_for_items words.now)) }
{
    for word in words {
        push_for_items(into, word)?;
    }
    Ok(())
}

/// The schemas that stand at the items of a list.
fn for_items<'a>(alloc: Global, schemas: &[&'a Schema]) -> Result<Vec<&'a Schema>, NoMemory>
    ensures { IfOk result (λ v. behind v.items ≡ spec.for_items (behind schemas.now)) }
{
    let mut into = Vec::new(alloc);
    for schema in schemas {
        push_each_for_items(&mut into, schema.words.as_slice())?;
    }
    Ok(into)
}

/// The schemas of the values that no property names.
#[tactic(auto, using(crate::proofs::WordLaws::others_laws))]
fn push_for_others<'a>(
    into: &mut Vec<&'a Schema>,
    additional: &'a Additional,
) -> Result<(), NoMemory>
    ensures { OnOk result (Gains into.old into.new (spec.for_others additional.now)) }
{
    match additional {
        Additional::Closed => Ok(()),
        Additional::Meets(schema) => push_one(into, schema),
    }
}

/// The schemas of the properties with the key.
fn push_with_key<'a>(
    into: &mut Vec<&'a Schema>,
    properties: &'a [SchemaProperty],
    key: &str,
) -> Result<(), NoMemory>
    ensures { OnOk result (Gains into.old into.new (spec.with_key key.now properties.now)) }
{
    for property in properties {
        if property.key.as_str() == key {
            push_one(into, &property.schema)?;
        }
    }
    Ok(())
}

#[tactic(auto, using(crate::proofs::WordLaws::key_steps))]
fn push_for_key<'a>(
    into: &mut Vec<&'a Schema>,
    word: &'a SchemaWord,
    words: &'a [SchemaWord],
    key: &str,
) -> Result<(), NoMemory>
    ensures { OnOk result (Gains into.old into.new (given_for_key words.now key.now word.now)) }
{
    match word {
        SchemaWord::AdditionalProperties(additional) => {
            if is_named(words, key) {
                Ok(())
            } else {
                push_for_others(into, additional)
            }
        }
        SchemaWord::Properties(properties) => push_with_key(into, properties.as_slice(), key),
        _ => Ok(()),
    }
}

fn push_each_for_key<'a>(
    into: &mut Vec<&'a Schema>,
    words: &'a [SchemaWord],
    key: &str,
) -> Result<(), NoMemory>
    ensures { OnOk result (Gains into.old into.new (all_for_key words.now key.now)) }
{
    for word in words {
        push_for_key(into, word, words, key)?;
    }
    Ok(())
}

/// The schemas that stand at the value under a key of a map.
fn for_key<'a>(
    alloc: Global,
    schemas: &[&'a Schema],
    key: &str,
) -> Result<Vec<&'a Schema>, NoMemory>
    ensures { IfOk result (λ v. behind v.items ≡ spec.for_key key.now (behind schemas.now)) }
{
    let mut into = Vec::new(alloc);
    for schema in schemas {
        push_each_for_key(&mut into, schema.words.as_slice(), key)?;
    }
    Ok(into)
}

/// A path one key further down.
fn path_under(alloc: Global, key: &str, path: &Chars) -> Result<Chars, NoMemory>
    ensures { IfOk result (λ p. p ≡ 47 ∷ key.now ++ path.now) }
{
    let mut under = Chars::new(alloc);
    under.push_str("/")?;
    under.push_str(key)?;
    under.push_str(path.as_str())?;
    Ok(under)
}

/// A child's fault, named from its parent.
fn fault_under(alloc: Global, key: &str, fault: SchemaFault) -> SchemaFault
    ensures { IsUnder key.now fault result }
{
    match fault {
        SchemaFault::Memory => SchemaFault::Memory,
        SchemaFault::At { path, word } => match path_under(alloc, key, &path) {
            Ok(path) => SchemaFault::At { path, word },
            Err(_) => SchemaFault::Memory,
        },
    }
}

/// A fault of the item at a place, named from its list.
fn fault_at(alloc: Global, place: usize, fault: SchemaFault) -> SchemaFault
    ensures { IsUnder (decimal place) fault result }
{
    match format!(in alloc; "{place}") {
        Ok(digits) => fault_under(alloc, digits.as_str(), fault),
        Err(_) => SchemaFault::Memory,
    }
}

#[cycle(validating)]
fn first_fault(alloc: Global, schemas: &[&Schema], tree: &Tree) -> Result<(), SchemaFault>
    ensures met { IsOk result → spec.all_meet (behind schemas.now) tree.now ≡ true }
    ensures fault { OnFault result (spec.FirstFault (behind schemas.now) tree.now) }
{
    if let Some(word) = first_failing(schemas, tree) {
        return Err(SchemaFault::At {
            path: Chars::new(alloc),
            word,
        });
    }
    match tree {
        Tree::List(items) => first_in_items(alloc, schemas, items.as_slice()),
        Tree::Map(entries) => first_in_entries(alloc, schemas, entries.as_slice()),
        _ => Ok(()),
    }
}

#[cycle(validating)]
fn first_in_items(alloc: Global, schemas: &[&Schema], items: &[Tree]) -> Result<(), SchemaFault>
    ensures met { IsOk result → items_meet (behind schemas.now) items.now ≡ true }
    ensures fault { OnFault result (spec.InItems (behind schemas.now) items.now) }
{
    let under = for_items(alloc, schemas)?;
    for (place, item) in items.iter().enumerate() {
        if let Err(fault) = first_fault(alloc, under.as_slice(), item) {
            return Err(fault_at(alloc, place, fault));
        }
    }
    Ok(())
}

#[cycle(validating)]
fn first_in_entry(alloc: Global, schemas: &[&Schema], entry: &Pair) -> Result<(), SchemaFault>
    ensures met { IsOk result → entry_meets (behind schemas.now) entry.now ≡ true }
    ensures fault { OnFault result (InEntry (behind schemas.now) entry.now) }
{
    let key = entry.key.as_str();
    let under = for_key(alloc, schemas, key)?;
    match first_fault(alloc, under.as_slice(), &entry.value) {
        Ok(()) => Ok(()),
        Err(fault) => Err(fault_under(alloc, key, fault)),
    }
}

#[cycle(validating)]
fn first_in_entries(alloc: Global, schemas: &[&Schema], entries: &[Pair]) -> Result<(), SchemaFault>
    ensures met { IsOk result → list_all (entry_meets (behind schemas.now)) entries.now ≡ true }
    ensures fault { OnFault result (spec.InEntries (behind schemas.now) entries.now) }
{
    for entry in entries {
        if let Err(fault) = first_in_entry(alloc, schemas, entry) {
            return Err(fault);
        }
    }
    Ok(())
}

impl Schema {
    /// Whether a tree meets the schema (JSON Schema 2020-12, validation 6 and core 10 and 11, on trees
    /// without fractions). Else `At` names its first failing place and the word that fails there: a
    /// node comes before its children, children in order, and at a node the words in the order of
    /// `Word`. A failure inside `allOf`, `anyOf`, `oneOf` or `not` counts at the node of that word.
    /// `Memory` is answered for want of memory alone.
    pub fn validate(&self, alloc: Global, tree: &Tree) -> Result<(), SchemaFault>
        ensures met { IsOk result → meets self.now tree.now ≡ true }
        ensures taken { meets self.now tree.now ≡ true → result ≢ Err faults.Memory → IsOk result }
        ensures fault { OnFault result (spec.FailsAt self.now tree.now) }
        ensures named { IsNamed self.now tree.now result }
    {
        first_fault(alloc, &[self], tree)
    }
}
