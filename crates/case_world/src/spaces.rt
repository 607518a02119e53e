//! Spaces of cases.

use crate::conds::cond_of;
use crate::numbers::number_of;
use std::alloc::Global;
use udb_base::{
    Chars, Cond, Domain, ExtSpace, ExtSpaces, Listed, Many, Name, NoMemory, Numbers, ParamSpace,
    ParamSpaces, Space, Version, Words, both,
};
use udb_cond::parse_version;

/// No list of numbers is longer.
const LONGEST: u64 = 1024;

fn version_of(text: &str) -> Version {
    match parse_version(text) {
        Ok(version) => version,
        Err(_) => Version {
            major: 1,
            minor: 0,
            patch: 0,
        },
    }
}

fn extension(alloc: Global, name: &str, version: &str) -> Result<ExtSpace, NoMemory> {
    let listed = Listed {
        version: version_of(version),
        breaking: false,
    };
    let (name, versions) = both(Name::of(alloc, name), Many::from_slice(alloc, &[listed]))?;
    Ok(ExtSpace {
        name,
        versions,
        needs: Cond::Always,
    })
}

fn listed_numbers(alloc: Global, text: &str) -> Result<Numbers, NoMemory> {
    let mut numbers = Many::new(alloc);
    for word in text.split('|') {
        numbers.push(number_of(word))?;
    }
    Ok(numbers)
}

fn numbers_between(alloc: Global, low: u64, high: u64) -> Result<Numbers, NoMemory> {
    let mut numbers = Many::new(alloc);
    for number in low..high.min(low.saturating_add(LONGEST)) {
        numbers.push(number)?;
    }
    numbers.push(high)?;
    Ok(numbers)
}

fn push_word(to: &mut Words, word: Result<Chars, NoMemory>) -> Result<(), NoMemory> {
    to.push(word?)?;
    Ok(())
}

fn listed_words(alloc: Global, text: &str) -> Result<Words, NoMemory> {
    let mut words = Many::new(alloc);
    for word in text.split('|') {
        push_word(&mut words, Chars::of(alloc, word))?;
    }
    Ok(words)
}

fn number_domain(alloc: Global, text: &str) -> Result<Domain, NoMemory> {
    if let Some((low, high)) = text.split_once("..") {
        return Ok(Domain::Range {
            low: number_of(low),
            high: number_of(high),
        });
    }
    match text.split_once('-') {
        Some((low, high)) => {
            let numbers = numbers_between(alloc, number_of(low), number_of(high))?;
            Ok(Domain::Numbers(numbers))
        }
        None => Ok(Domain::Numbers(listed_numbers(alloc, text)?)),
    }
}

fn domain_of(alloc: Global, text: &str) -> Result<Domain, NoMemory> {
    if text == "flag" {
        return Ok(Domain::Flags);
    }
    if text.starts_with(|letter: char| letter.is_ascii_digit()) {
        return number_domain(alloc, text);
    }
    Ok(Domain::Words(listed_words(alloc, text)?))
}

fn parameter(alloc: Global, name: &str, text: &str) -> Result<ParamSpace, NoMemory> {
    let (domain, defined) = text.split_once('?').unwrap_or((text, "always"));
    let parts = both(domain_of(alloc, domain), cond_of(alloc, defined));
    let (name, (domain, defined)) = both(Name::of(alloc, name), parts)?;
    Ok(ParamSpace {
        name,
        domain,
        defined,
        needs: Cond::Always,
    })
}

fn push_extension(to: &mut ExtSpaces, one: Result<ExtSpace, NoMemory>) -> Result<(), NoMemory> {
    to.push(one?)?;
    Ok(())
}

fn push_parameter(to: &mut ParamSpaces, one: Result<ParamSpace, NoMemory>) -> Result<(), NoMemory> {
    to.push(one?)?;
    Ok(())
}

fn extensions(alloc: Global, text: &str) -> Result<ExtSpaces, NoMemory> {
    let mut all = Many::new(alloc);
    for word in text.split(' ') {
        if let Some((name, version)) = word.split_once('@') {
            push_extension(&mut all, extension(alloc, name, version))?;
        }
    }
    Ok(all)
}

fn parameters(alloc: Global, text: &str) -> Result<ParamSpaces, NoMemory> {
    let mut all = Many::new(alloc);
    for word in text.split(' ') {
        if let Some((name, domain)) = word.split_once('=') {
            push_parameter(&mut all, parameter(alloc, name, domain))?;
        }
    }
    Ok(all)
}

/// The space of some words, each kind in the order of names: `NAME@VERSION` is an extension;
/// `NAME=DOMAIN` a parameter, whose domain is `flag`, numbers or words joined by `|`, `LOW-HIGH` for
/// all numbers between as a list, or `LOW..HIGH` for a range, and which is defined where a condition behind
/// `?` holds.
pub fn space_of(alloc: Global, text: &str) -> Result<Space, NoMemory> {
    let (extensions, params) = both(extensions(alloc, text), parameters(alloc, text))?;
    Ok(Space { extensions, params })
}
