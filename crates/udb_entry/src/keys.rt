//! What a tree has under its keys.

ghost use Rattle.std.specs.Prelude.{◌≡◌};
ghost use Rattle.std.specs.Option.{option_copied};
ghost use Rattle.udb_entry.specs.Keys as spec;

use yaml_spec::{Pair, Tree, value_under};

/// The entries of the map that a tree is, else none.
pub fn pairs_in(tree: &Tree) -> &[Pair]
    ensures { result.now ≡ spec.pairs_in tree.now }
{
    match tree.as_map() {
        Some(pairs) => pairs,
        None => &[],
    }
}

fn items_in(tree: &Tree) -> &[Tree]
    ensures { result.now ≡ spec.items_in tree.now }
{
    match tree.as_list() {
        Some(items) => items,
        None => &[],
    }
}

/// The text that a tree is, else the empty one.
pub fn text_in(tree: &Tree) -> &str
    ensures { result.now ≡ spec.text_in tree.now }
{
    match tree.as_text() {
        Some(text) => text,
        None => "",
    }
}

fn natural(number: i128) -> u64
    ensures { result ≡ spec.natural number }
{
    u64::try_from(number).unwrap_or(0)
}

/// The number of 64 bits that a tree is, else 0.
pub fn number_in(tree: &Tree) -> u64
    ensures { result ≡ spec.number_in tree.now }
{
    match tree.as_int() {
        Some(number) => natural(number),
        None => 0,
    }
}

fn flag_in(tree: &Tree, missing: bool) -> bool
    ensures { result ≡ spec.flag_in tree.now missing }
{
    tree.as_flag().unwrap_or(missing)
}

/// The value under a key.
pub fn value_at<'a>(tree: &'a Tree, key: &str) -> Option<&'a Tree>
    ensures { option_copied result ≡ spec.value_at tree.now key.now }
{
    value_under(pairs_in(tree), key)
}

/// The entries of the map under a key.
pub fn pairs_at<'a>(tree: &'a Tree, key: &str) -> &'a [Pair]
    ensures { result.now ≡ spec.pairs_at tree.now key.now }
{
    match value_at(tree, key) {
        Some(value) => pairs_in(value),
        None => &[],
    }
}

/// The items of the list under a key.
pub fn items_at<'a>(tree: &'a Tree, key: &str) -> &'a [Tree]
    ensures { result.now ≡ spec.items_at tree.now key.now }
{
    match value_at(tree, key) {
        Some(value) => items_in(value),
        None => &[],
    }
}

/// The text under a key.
pub fn text_at<'a>(tree: &'a Tree, key: &str) -> &'a str
    ensures { result.now ≡ spec.text_at tree.now key.now }
{
    match value_at(tree, key) {
        Some(value) => text_in(value),
        None => "",
    }
}

/// The number under a key.
pub fn number_at(tree: &Tree, key: &str) -> u64
    ensures { result ≡ spec.number_at tree.now key.now }
{
    match value_at(tree, key) {
        Some(value) => number_in(value),
        None => 0,
    }
}

/// The Flag under a key, else what is said of a missing one.
pub fn flag_at(tree: &Tree, key: &str, missing: bool) -> bool
    ensures { result ≡ spec.flag_at tree.now key.now missing }
{
    match value_at(tree, key) {
        Some(value) => flag_in(value, missing),
        None => missing,
    }
}
