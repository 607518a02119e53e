//! Equality of trees as JSON values.

ghost use Rattle.std.specs.Prelude.{◌≡◌, map};
ghost use Rattle.std.specs.Ordering.{int_eq};
ghost use Rattle.std.specs.Str.{bytes_eq};
ghost use Rattle.yaml_spec.specs.Trees as trees;
ghost use Rattle.udb_base.specs.Lists as lists;
ghost use Rattle.udb_schema.specs.Equality as spec;

use yaml_spec::{Pair, Tree, value_under};

fn is_flag(tree: &Tree, flag: bool) -> bool
    ensures { result ≡ spec.holds_of (trees.flag_of tree.now) (spec.same_flags flag) }
{
    match tree.as_flag() {
        Some(other) => flag == other,
        None => false,
    }
}

fn is_int(tree: &Tree, number: i128) -> bool
    ensures { result ≡ spec.holds_of (trees.int_of tree.now) (int_eq number) }
{
    match tree.as_int() {
        Some(other) => number == other,
        None => false,
    }
}

fn is_text(tree: &Tree, text: &str) -> bool
    ensures { result ≡ spec.holds_of (trees.text_of tree.now) (bytes_eq text.now) }
{
    match tree.as_text() {
        Some(other) => text == other,
        None => false,
    }
}

/// Whether one of the others has the key of an entry, with an equal value.
#[cycle(same)]
fn same_entry(entry: &Pair, others: &[Pair]) -> bool
    ensures { result ≡ spec.has_entry others.now (spec.entry entry.now) }
{
    match value_under(others, entry.key.as_str()) {
        Some(other) => same(&entry.value, other),
        None => false,
    }
}

#[cycle(same)]
fn same_entries(entries: &[Pair], tree: &Tree) -> bool
    ensures { result ≡ spec.is_map (map spec.entry entries.now) tree.now }
{
    let Some(others) = tree.as_map() else {
        return false;
    };
    if entries.len() != others.len() {
        return false;
    }
    for entry in entries {
        if !same_entry(entry, others) {
            return false;
        }
    }
    true
}

#[cycle(same)]
#[tactic(auto, using(crate::proofs::TreeLaws::agree_next))]
fn same_items(items: &[Tree], tree: &Tree) -> bool
    ensures { result ≡ spec.is_list (map spec.same items.now) tree.now }
{
    let Some(others) = tree.as_list() else {
        return false;
    };
    if items.len() != others.len() {
        return false;
    }
    for (place, item) in items.iter().enumerate() {
        if !same(item, &others[place]) {
            return false;
        }
    }
    true
}

/// Whether two trees are equal as JSON values: the order of a map's entries says nothing.
#[cycle(same)]
#[tactic(auto, using(crate::proofs::TreeLaws::same_laws))]
pub fn same(tree: &Tree, other: &Tree) -> bool
    ensures { result ≡ spec.same tree.now other.now }
{
    match tree {
        Tree::Null => other.is_null(),
        Tree::Flag(flag) => is_flag(other, *flag),
        Tree::Int(number) => is_int(other, *number),
        Tree::Text(text) => is_text(other, text.as_str()),
        Tree::List(items) => same_items(items.as_slice(), other),
        Tree::Map(entries) => same_entries(entries.as_slice(), other),
    }
}

/// Whether a tree equals one of these.
pub fn is_among(tree: &Tree, others: &[Tree]) -> bool
    ensures { result ≡ lists.is_among spec.same tree.now others.now }
{
    others.iter().any(|other| same(tree, other))
}

/// Whether no two of the trees are equal. The time grows with the square of their number.
pub fn are_distinct(trees: &[Tree]) -> bool
    ensures { result ≡ lists.are_distinct spec.same trees.now }
{
    for (place, tree) in trees.iter().enumerate() {
        if is_among(tree, &trees[place + 1..]) {
            return false;
        }
    }
    true
}
