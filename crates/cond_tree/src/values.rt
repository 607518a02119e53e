//! What trees give parameters, and parts of maps and lists.

ghost use Rattle.std.specs.Prelude.{◌≡◌, ◌∷◌, [], codes, IfOk, option_map};
ghost use Rattle.std.specs.Option.{option_copied};
ghost use Rattle.udb_base.specs.Lists as lists;
ghost use Rattle.cond_tree.specs.Values as spec;

use std::alloc::Global;
use udb_base::{Copied, Many, NoMemory, Value};
use yaml_spec::{Pair, Tree};

fn number_of(number: i128) -> Option<u64>
    ensures { result ≡ spec.number_of number }
{
    u64::try_from(number).ok()
}

/// The value that a tree gives a parameter or compares it with: a truth value, a whole number from
/// 0 to 2^64-1 or a text. None of any other tree.
#[tactic(auto, using(yaml_spec::proofs::TreeLaws::layers), unfolding(crate::specs::Values::value_of))]
pub fn read_value(alloc: Global, tree: &Tree) -> Result<Option<Value>, NoMemory>
    ensures { IfOk result (λ r. r ≡ spec.value_of tree.now) }
{
    match tree {
        Tree::Flag(flag) => Ok(Some(Value::Flag(*flag))),
        Tree::Int(number) => Ok(number_of(*number).map(Value::Number)),
        Tree::Text(text) => Ok(Some(Value::Word(text.copy(alloc)?))),
        _ => Ok(None),
    }
}

/// A list of one item, where there is one.
pub(crate) fn one<T: Drop>(alloc: Global, item: Option<T>) -> Result<Option<Many<T>>, NoMemory>
    ensures { IfOk result (λ r. r ≡ lists.one item) }
{
    match item {
        Some(item) => Ok(Some(list_of(alloc, item)?)),
        None => Ok(None),
    }
}

fn list_of<T: Drop>(alloc: Global, item: T) -> Result<Many<T>, NoMemory>
    ensures { IfOk result (λ items. items ≡ item ∷ []) }
{
    let mut items = Many::new(alloc);
    items.push(item)?;
    Ok(items)
}

/// The items of a list of one to 64.
pub(crate) fn few_items(tree: &Tree) -> Option<&[Tree]>
    ensures { option_map (λ s. s.now) result ≡ spec.few_items tree.now }
{
    let items = tree.as_list()?;
    if 1 <= items.len() && items.len() <= 64 {
        Some(items)
    } else {
        None
    }
}

/// The entry of a map that has one.
pub(crate) fn only(entries: &[Pair]) -> Option<&Pair>
    ensures { option_copied result ≡ spec.only entries.now }
{
    match entries {
        [entry] => Some(entry),
        _ => None,
    }
}

pub(crate) fn is_name(entry: &Pair) -> bool
    ensures { result ≡ spec.is_key (codes "name") entry.now }
{
    entry.key.as_str() == "name"
}

/// Of a map with two entries the value under `name`, and the other entry.
pub(crate) fn beside_name(entries: &[Pair]) -> Option<(&Tree, &Pair)>
    ensures { option_map (λ x. (x.0.now, x.1.now)) result ≡ spec.beside_name entries.now }
{
    match entries {
        [first, second] => beside(first, second),
        _ => None,
    }
}

fn beside<'a>(first: &'a Pair, second: &'a Pair) -> Option<(&'a Tree, &'a Pair)>
    ensures { option_map (λ x. (x.0.now, x.1.now)) result ≡ spec.beside first.now second.now }
{
    if is_name(first) {
        Some((&first.value, second))
    } else if is_name(second) {
        Some((&second.value, first))
    } else {
        None
    }
}
