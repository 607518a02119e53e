//! Whether a tree meets a schema.

ghost use Rattle.std.specs.Prelude.{◌≡◌, ◌==◌, map, length, nat_le, int_le, count_by};
ghost use Rattle.std.specs.Fmt.{char_count, is_char_start};
ghost use Rattle.std.specs.List.{list_all, list_any};
ghost use Rattle.yaml_spec.specs.Line.{has_key};
ghost use Rattle.yaml_spec.specs.Trees as trees;
ghost use Rattle.udb_schema.specs.Meets as spec;

use crate::equality::{are_distinct, is_among, same};
use crate::words::{Additional, Schema, SchemaProperty, SchemaWord, TypeName};
use udb_base::Chars;
use yaml_spec::{Pair, Tree};

fn is_type(tree: &Tree, name: TypeName) -> bool
    ensures { result ≡ spec.is_type tree.now name }
{
    match name {
        TypeName::Null => tree.is_null(),
        TypeName::Boolean => tree.as_flag().is_some(),
        TypeName::Integer => tree.as_int().is_some(),
        TypeName::Number => tree.as_int().is_some(),
        TypeName::Text => tree.as_text().is_some(),
        TypeName::List => tree.as_list().is_some(),
        TypeName::Map => tree.as_map().is_some(),
    }
}

fn has_type(tree: &Tree, names: &[TypeName]) -> bool
    ensures { result ≡ list_any (spec.is_type tree.now) names.now }
{
    names.iter().any(|name| is_type(tree, *name))
}

fn is_at_least(tree: &Tree, low: i128) -> bool
    ensures { result ≡ spec.met_by (trees.int_of tree.now) (λ z. int_le low z) }
{
    tree.as_int().is_none_or(|number| low <= number)
}

fn is_at_most(tree: &Tree, high: i128) -> bool
    ensures { result ≡ spec.met_by (trees.int_of tree.now) (λ z. int_le z high) }
{
    tree.as_int().is_none_or(|number| number <= high)
}

/// Whether a byte of a text is the first of a character.
fn begins_character(byte: u8) -> bool
    ensures { result ≡ is_char_start byte }
{
    byte < 0x80 || 0xC0 <= byte
}

/// How many characters the bytes of a text make.
#[tactic(auto, using(crate::proofs::TreeLaws::counted))]
fn characters(bytes: &[u8]) -> usize
    ensures { result ≡ char_count bytes.now }
{
    bytes.iter().filter(|byte| begins_character(**byte)).count()
}

fn is_long_enough(tree: &Tree, least: u64) -> bool
    ensures { result ≡ spec.met_by (trees.text_of tree.now) (λ s. nat_le least (char_count s)) }
{
    tree.as_text()
        .is_none_or(|text| least <= characters(text.as_bytes()) as u64)
}

fn has_items(tree: &Tree, least: u64) -> bool
    ensures { result ≡ spec.met_by (trees.items_of tree.now) (λ xs. nat_le least (length xs)) }
{
    tree.as_list()
        .is_none_or(|items| least <= items.len() as u64)
}

fn has_no_more_items(tree: &Tree, most: u64) -> bool
    ensures { result ≡ spec.met_by (trees.items_of tree.now) (λ xs. nat_le (length xs) most) }
{
    tree.as_list()
        .is_none_or(|items| items.len() as u64 <= most)
}

fn has_distinct_items(tree: &Tree, asked: bool) -> bool
    ensures { result ≡ spec.unique_test asked tree.now }
{
    tree.as_list()
        .is_none_or(|items| !asked || are_distinct(items))
}

fn has_entries(tree: &Tree, least: u64) -> bool
    ensures { result ≡ spec.met_by (trees.entries_of tree.now) (λ ps. nat_le least (length ps)) }
{
    tree.as_map()
        .is_none_or(|entries| least <= entries.len() as u64)
}

fn has_no_more_entries(tree: &Tree, most: u64) -> bool
    ensures { result ≡ spec.met_by (trees.entries_of tree.now) (λ ps. nat_le (length ps) most) }
{
    tree.as_map()
        .is_none_or(|entries| entries.len() as u64 <= most)
}

fn is_key(entries: &[Pair], key: &str) -> bool
    ensures { result ≡ has_key key.now entries.now }
{
    for entry in entries {
        if entry.key.as_str() == key {
            return true;
        }
    }
    false
}

fn has_each_key(entries: &[Pair], keys: &[Chars]) -> bool
    ensures { result ≡ spec.has_keys keys.now entries.now }
{
    keys.iter().all(|key| is_key(entries, key.as_str()))
}

fn has_required(tree: &Tree, keys: &[Chars]) -> bool
    ensures { result ≡ spec.required_test keys.now tree.now }
{
    tree.as_map()
        .is_none_or(|entries| has_each_key(entries, keys))
}

/// Whether one of the properties has the key.
fn has_property(properties: &[SchemaProperty], key: &str) -> bool
    ensures { result ≡ spec.has_property (map spec.property properties.now) key.now }
{
    for property in properties {
        if property.key.as_str() == key {
            return true;
        }
    }
    false
}

#[tactic(auto, using(crate::proofs::WordLaws::clause_laws))]
fn word_names(word: &SchemaWord, key: &str) -> bool
    ensures { result ≡ (spec.clause word.now).names key.now }
{
    match word {
        SchemaWord::Properties(properties) => has_property(properties.as_slice(), key),
        _ => false,
    }
}

/// Whether the words name the key.
pub fn is_named(words: &[SchemaWord], key: &str) -> bool
    ensures { result ≡ spec.named words.now key.now }
{
    for word in words {
        if word_names(word, key) {
            return true;
        }
    }
    false
}

#[cycle(meeting)]
fn items_meet(schema: &Schema, tree: &Tree) -> bool
    ensures { result ≡ spec.items_test (spec.meets schema.now) tree.now }
{
    let Some(items) = tree.as_list() else {
        return true;
    };
    for item in items {
        if !meets(schema, item) {
            return false;
        }
    }
    true
}

#[cycle(meeting)]
fn value_meets(properties: &[SchemaProperty], entry: &Pair) -> bool
    ensures { result ≡ spec.meets_properties (map spec.property properties.now) entry.now }
{
    for property in properties {
        if property.key.as_str() == entry.key.as_str() && !meets(&property.schema, &entry.value) {
            return false;
        }
    }
    true
}

#[cycle(meeting)]
fn properties_meet(properties: &[SchemaProperty], tree: &Tree) -> bool
    ensures { result ≡ spec.properties_test (map spec.property properties.now) tree.now }
{
    let Some(entries) = tree.as_map() else {
        return true;
    };
    for entry in entries {
        if !value_meets(properties, entry) {
            return false;
        }
    }
    true
}

#[cycle(meeting)]
#[tactic(auto, using(crate::proofs::WordLaws::additional_laws))]
fn is_allowed(additional: &Additional, tree: &Tree) -> bool
    ensures { result ≡ spec.allowed (spec.additional additional.now) tree.now }
{
    match additional {
        Additional::Closed => false,
        Additional::Meets(schema) => meets(schema, tree),
    }
}

#[cycle(meeting)]
fn others_allowed(additional: &Additional, words: &[SchemaWord], tree: &Tree) -> bool
    ensures { result ≡ spec.meets_others words.now additional.now tree.now }
{
    let Some(entries) = tree.as_map() else {
        return true;
    };
    for entry in entries {
        if !is_named(words, entry.key.as_str()) && !is_allowed(additional, &entry.value) {
            return false;
        }
    }
    true
}

#[cycle(meeting)]
fn all_meet(schemas: &[Schema], tree: &Tree) -> bool
    ensures { result ≡ list_all (λ s. s tree.now) (map spec.meets schemas.now) }
{
    for schema in schemas {
        if !meets(schema, tree) {
            return false;
        }
    }
    true
}

#[cycle(meeting)]
fn any_meets(schemas: &[Schema], tree: &Tree) -> bool
    ensures { result ≡ list_any (λ s. s tree.now) (map spec.meets schemas.now) }
{
    for schema in schemas {
        if meets(schema, tree) {
            return true;
        }
    }
    false
}

#[cycle(meeting)]
fn how_many_meet(schemas: &[Schema], tree: &Tree) -> usize
    ensures { result ≡ count_by (λ s. s tree.now) (map spec.meets schemas.now) }
{
    let mut count = 0;
    for schema in schemas {
        if meets(schema, tree) {
            count += 1;
        }
    }
    count
}

/// Whether a tree meets a word that stands among these.
#[cycle(meeting)]
#[tactic(auto, using(crate::proofs::WordLaws::clause_laws))]
pub fn word_is_met(word: &SchemaWord, words: &[SchemaWord], tree: &Tree) -> bool
    ensures { result ≡ spec.met (spec.named words.now) word.now tree.now }
{
    match word {
        SchemaWord::Type(names) => has_type(tree, names.as_slice()),
        SchemaWord::Enum(values) => is_among(tree, values.as_slice()),
        SchemaWord::Const(value) => same(tree, value),
        SchemaWord::Minimum(low) => is_at_least(tree, *low),
        SchemaWord::Maximum(high) => is_at_most(tree, *high),
        SchemaWord::MinLength(least) => is_long_enough(tree, *least),
        SchemaWord::MinItems(least) => has_items(tree, *least),
        SchemaWord::MaxItems(most) => has_no_more_items(tree, *most),
        SchemaWord::UniqueItems(asked) => has_distinct_items(tree, *asked),
        SchemaWord::MinProperties(least) => has_entries(tree, *least),
        SchemaWord::MaxProperties(most) => has_no_more_entries(tree, *most),
        SchemaWord::Required(keys) => has_required(tree, keys.as_slice()),
        SchemaWord::AdditionalProperties(additional) => others_allowed(additional, words, tree),
        SchemaWord::Properties(properties) => properties_meet(properties.as_slice(), tree),
        SchemaWord::Items(schema) => items_meet(schema, tree),
        SchemaWord::AllOf(schemas) => all_meet(schemas.as_slice(), tree),
        SchemaWord::AnyOf(schemas) => any_meets(schemas.as_slice(), tree),
        SchemaWord::OneOf(schemas) => how_many_meet(schemas.as_slice(), tree) == 1,
        SchemaWord::Not(schema) => !meets(schema, tree),
    }
}

/// Whether a tree meets each of the words.
#[cycle(meeting)]
fn words_are_met(words: &[SchemaWord], tree: &Tree) -> bool
    ensures { result ≡ list_all (λ w. spec.met (spec.named words.now) w tree.now) words.now }
{
    for word in words {
        if !word_is_met(word, words, tree) {
            return false;
        }
    }
    true
}

/// Whether a tree meets a schema.
#[cycle(meeting)]
#[tactic(auto, using(crate::proofs::WordLaws::meets_law))]
pub fn meets(schema: &Schema, tree: &Tree) -> bool
    ensures { result ≡ spec.meets schema.now tree.now }
{
    words_are_met(schema.words.as_slice(), tree)
}
