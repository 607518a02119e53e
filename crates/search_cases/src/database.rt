//! The databases of cases.

use cond_tree::{read_cond, read_value};
use std::alloc::Global;
use udb_base::{
    Chars, Cond, Conds, Domain, ExtSpace, ExtSpaces, Listed, ListedVersions, Many, Name, NoMemory,
    Numbers, ParamSpace, ParamSpaces, Partial, Space, Test, Value, Words, both,
};
use udb_cond::parse_version;
use yaml_spec::{Tree, value_under};

// ---- parts of trees

fn part<'a>(tree: &'a Tree, key: &str) -> Option<&'a Tree> {
    match tree.as_map() {
        Some(entries) => value_under(entries, key),
        None => None,
    }
}

fn text_of<'a>(tree: &'a Tree, key: &str) -> &'a str {
    match part(tree, key) {
        Some(tree) => tree.as_text().unwrap_or(""),
        None => "",
    }
}

fn items_of<'a>(tree: &'a Tree, key: &str) -> &'a [Tree] {
    match part(tree, key) {
        Some(tree) => tree.as_list().unwrap_or(&[]),
        None => &[],
    }
}

fn number(tree: &Tree) -> u64 {
    match tree.as_int() {
        Some(number) => u64::try_from(number).unwrap_or(0),
        None => 0,
    }
}

fn number_of(tree: &Tree, key: &str) -> u64 {
    match part(tree, key) {
        Some(tree) => number(tree),
        None => 0,
    }
}

fn finished<T: Drop>(all: T, done: Result<(), NoMemory>) -> Result<T, NoMemory> {
    done?;
    Ok(all)
}

fn add<T: Drop>(to: &mut Many<T>, item: Result<T, NoMemory>) -> Result<(), NoMemory> {
    to.push(item?)?;
    Ok(())
}

// ---- conditions

fn param_is(alloc: Global, name: &str, value: bool) -> Result<Cond, NoMemory> {
    Ok(Cond::Param {
        name: Name::of(alloc, name)?,
        test: Test::Equal,
        value: Value::Flag(value),
    })
}

// A tree that spells no condition names an extension that no space has.
fn cond(alloc: Global, tree: &Tree) -> Result<Cond, NoMemory> {
    match read_cond(alloc, tree)? {
        Some(cond) => Ok(cond),
        None => Ok(Cond::Ext {
            name: Name::of(alloc, "?")?,
            needs: Many::new(alloc),
        }),
    }
}

/// The condition under a key; one that is missing always holds.
pub fn cond_of(alloc: Global, tree: &Tree, key: &str) -> Result<Cond, NoMemory> {
    match part(tree, key) {
        Some(tree) => cond(alloc, tree),
        None => Ok(Cond::Always),
    }
}

fn add_conds(alloc: Global, to: &mut Conds, trees: &[Tree]) -> Result<(), NoMemory> {
    for tree in trees {
        add(to, cond(alloc, tree))?;
    }
    Ok(())
}

/// The configuration's constraints.
pub fn partial_of(alloc: Global, tree: &Tree) -> Result<Partial, NoMemory> {
    let mut constraints = Many::new(alloc);
    let done = add_conds(alloc, &mut constraints, items_of(tree, "own"));
    let constraints = finished(constraints, done)?;
    Ok(Partial { constraints })
}

// ---- extensions

fn listed_of(word: &str) -> Option<Listed> {
    let (text, breaking) = match word.strip_suffix('!') {
        Some(text) => (text, true),
        None => (word, false),
    };
    match parse_version(text) {
        Ok(version) => Some(Listed { version, breaking }),
        Err(_) => None,
    }
}

fn versions_of(alloc: Global, text: &str) -> Result<ListedVersions, NoMemory> {
    let mut list = Many::new(alloc);
    for word in text.split(' ') {
        if let Some(listed) = listed_of(word) {
            list.push(listed)?;
        }
    }
    Ok(list)
}

fn extension_of(alloc: Global, tree: &Tree) -> Result<ExtSpace, NoMemory> {
    let versions = versions_of(alloc, text_of(tree, "versions"));
    let parts = both(versions, cond_of(alloc, tree, "needs"));
    let (name, (versions, needs)) = both(Name::of(alloc, text_of(tree, "name")), parts)?;
    Ok(ExtSpace {
        name,
        versions,
        needs,
    })
}

fn add_extensions(alloc: Global, to: &mut ExtSpaces, trees: &[Tree]) -> Result<(), NoMemory> {
    for tree in trees {
        add(to, extension_of(alloc, tree))?;
    }
    Ok(())
}

fn extensions_of(alloc: Global, tree: &Tree) -> Result<ExtSpaces, NoMemory> {
    let mut all = Many::new(alloc);
    let done = add_extensions(alloc, &mut all, items_of(tree, "extensions"));
    finished(all, done)
}

// ---- parameters

fn numbers_of(alloc: Global, trees: &[Tree]) -> Result<Numbers, NoMemory> {
    let mut all = Many::new(alloc);
    for tree in trees {
        all.push(number(tree))?;
    }
    Ok(all)
}

fn words_of(alloc: Global, trees: &[Tree]) -> Result<Words, NoMemory> {
    let mut all = Many::new(alloc);
    for tree in trees {
        all.push(Chars::of(alloc, tree.as_text().unwrap_or(""))?)?;
    }
    Ok(all)
}

fn listed_domain(alloc: Global, trees: &[Tree]) -> Result<Domain, NoMemory> {
    let are_words = match trees.first() {
        Some(tree) => tree.as_int().is_none(),
        None => false,
    };
    if are_words {
        Ok(Domain::Words(words_of(alloc, trees)?))
    } else {
        Ok(Domain::Numbers(numbers_of(alloc, trees)?))
    }
}

fn domain_of(alloc: Global, tree: &Tree) -> Result<Domain, NoMemory> {
    match part(tree, "values") {
        None => Ok(Domain::Flags),
        Some(values) => match values.as_list() {
            Some(trees) => listed_domain(alloc, trees),
            None => Ok(Domain::Range {
                low: number_of(values, "low"),
                high: number_of(values, "high"),
            }),
        },
    }
}

fn param_of(alloc: Global, tree: &Tree) -> Result<ParamSpace, NoMemory> {
    let conds = both(
        cond_of(alloc, tree, "defined"),
        cond_of(alloc, tree, "needs"),
    );
    let parts = both(domain_of(alloc, tree), conds);
    let (name, (domain, (defined, needs))) = both(Name::of(alloc, text_of(tree, "name")), parts)?;
    Ok(ParamSpace {
        name,
        domain,
        defined,
        needs,
    })
}

fn two<T: Drop>(alloc: Global, first: T, second: T) -> Result<Many<T>, NoMemory> {
    let mut parts = Many::new(alloc);
    parts.push(first)?;
    parts.push(second)?;
    Ok(parts)
}

fn link_needs(alloc: Global, name: &str, next: &str) -> Result<Cond, NoMemory> {
    let (first, second) = both(param_is(alloc, name, false), param_is(alloc, next, true))?;
    Ok(Cond::Any(two(alloc, first, second)?))
}

fn link(alloc: Global, at: u64, count: u64) -> Result<ParamSpace, NoMemory> {
    let name = format!(in alloc; "P{at:03}")?;
    let next = format!(in alloc; "P{:03}", at.saturating_add(1).min(count))?;
    let needs = link_needs(alloc, name.as_str(), next.as_str());
    let (name, needs) = both(Name::of(alloc, name.as_str()), needs)?;
    Ok(ParamSpace {
        name,
        domain: Domain::Flags,
        defined: Cond::Always,
        needs,
    })
}

fn add_params(
    alloc: Global,
    to: &mut ParamSpaces,
    trees: &[Tree],
    chain: u64,
) -> Result<(), NoMemory> {
    for tree in trees {
        add(to, param_of(alloc, tree))?;
    }
    for at in 0..chain {
        add(to, link(alloc, at, chain - 1))?;
    }
    Ok(())
}

fn params_of(alloc: Global, tree: &Tree) -> Result<ParamSpaces, NoMemory> {
    let mut all = Many::new(alloc);
    let chain = number_of(tree, "chain");
    let done = add_params(alloc, &mut all, items_of(tree, "params"), chain);
    finished(all, done)
}

/// The space.
pub fn space_of(alloc: Global, tree: &Tree) -> Result<Space, NoMemory> {
    let (extensions, params) = both(extensions_of(alloc, tree), params_of(alloc, tree))?;
    Ok(Space { extensions, params })
}
