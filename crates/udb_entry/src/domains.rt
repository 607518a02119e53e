//! Domains of parameters.

ghost use Rattle.std.specs.Prelude.{◌≡◌, IfOk, map, codes};
ghost use Rattle.udb_entry.specs.Keys as keys;
ghost use Rattle.udb_entry.specs.Entries as spec;
ghost use Rattle.udb_entry.specs.Rules as rules;
ghost use Rattle.udb_entry.specs.Parts.{ReadsBy};

use crate::answers::EntryFault;
use crate::keys::{items_at, number_at, number_in, text_at, text_in, value_at};
use std::alloc::Global;
use udb_base::{Chars, Domain, Many, NoMemory, Numbers, Words, are_distinct};
use yaml_spec::Tree;

fn words(alloc: Global, items: &[Tree]) -> Result<Words, NoMemory>
    ensures { IfOk result (λ words. words ≡ map keys.text_in items.now) }
{
    let mut words = Many::new(alloc);
    for item in items {
        words.push(Chars::of(alloc, text_in(item))?)?;
    }
    Ok(words)
}

fn numbers(alloc: Global, items: &[Tree]) -> Result<Numbers, NoMemory>
    ensures { IfOk result (λ numbers. numbers ≡ map keys.number_in items.now) }
{
    let mut numbers = Many::new(alloc);
    for item in items {
        numbers.push(number_in(item))?;
    }
    Ok(numbers)
}

fn number_domain(alloc: Global, tree: &Tree) -> Result<Domain, NoMemory>
    ensures { IfOk result (λ domain. domain ≡ spec.number_domain tree.now) }
{
    match value_at(tree, "enum") {
        Some(_) => Ok(Domain::Numbers(numbers(alloc, items_at(tree, "enum"))?)),
        None => Ok(Domain::Range {
            low: number_at(tree, "minimum"),
            high: number_at(tree, "maximum"),
        }),
    }
}

fn domain(alloc: Global, tree: &Tree) -> Result<Domain, NoMemory>
    ensures { IfOk result (λ domain. domain ≡ spec.domain_of tree.now) }
{
    let name = text_at(tree, "type");
    if name == "boolean" {
        return Ok(Domain::Flags);
    }
    if name == "string" {
        return Ok(Domain::Words(words(alloc, items_at(tree, "enum"))?));
    }
    number_domain(alloc, tree)
}

fn domain_at(alloc: Global, tree: &Tree, key: &str) -> Result<Domain, NoMemory>
    ensures { IfOk result (λ domain. domain ≡ spec.domain_at tree.now key.now) }
{
    match value_at(tree, key) {
        Some(value) => domain(alloc, value),
        None => Ok(Domain::Flags),
    }
}

fn is_domain(domain: &Domain) -> bool
    ensures { result ≡ rules.is_domain domain.now }
{
    match domain {
        Domain::Flags => true,
        Domain::Numbers(numbers) => are_distinct(numbers.as_slice()),
        Domain::Range { low, high } => *low <= *high,
        Domain::Words(words) => are_distinct(words.as_slice()),
    }
}

/// The domain of a parameter. Rule 6 is that no value stands twice, and no low end above its high
/// end.
pub fn param_domain(alloc: Global, tree: &Tree) -> Result<Domain, EntryFault>
    ensures { ReadsBy 6 (rules.domain_rule tree.now)
        (spec.domain_at tree.now (codes "schema")) result }
{
    let domain = domain_at(alloc, tree, "schema")?;
    if is_domain(&domain) {
        Ok(domain)
    } else {
        Err(EntryFault::Broken {
            rule: 6,
            shows: Many::new(alloc),
        })
    }
}
