//! Copies that equal their source.

ghost use Rattle.std.specs.Prelude.{◌≡◌, IfOk, Ok};

use crate::characters::Chars;
use crate::conditions::{Cond, Conds, Value};
use crate::names::Name;
use crate::refutations::{Partial, Proof, Proofs};
use crate::spaces::{Domain, ExtSpace, Full, ParamSpace, Space};
use crate::{Many, NoMemory};
use sqlite_items::Boxed;
use std::alloc::Global;

/// A value of which a copy can be made. The copy equals its source; the one refusal of `copy`, and
/// of the calls over it, is want of memory.
pub trait Copied: Drop {
    fn copy(&self, alloc: Global) -> Result<Self, NoMemory>
        ensures { IfOk result (λ copy. copy ≡ self.now) };
}

/// A copy of a list, part by part.
pub fn copy_all<T: Copied>(alloc: Global, parts: &[T]) -> Result<Many<T>, NoMemory>
    ensures { IfOk result (λ copies. copies ≡ parts.now) }
{
    let mut copies = Many::new(alloc);
    for part in parts {
        copies.push(part.copy(alloc)?)?;
    }
    Ok(copies)
}

/// A copy of a value, where there is one.
pub fn copy_if_any<T: Copied>(alloc: Global, value: &Option<T>) -> Result<Option<T>, NoMemory>
    ensures { IfOk result (λ copy. copy ≡ value.now) }
{
    match value {
        Some(value) => Ok(Some(value.copy(alloc)?)),
        None => Ok(None),
    }
}

/// Two values, where memory sufficed for both. A function that makes two trees joins them here, so
/// that no tree is owned where an answer may be left early.
pub fn both<A: Drop, B: Drop>(
    first: Result<A, NoMemory>,
    second: Result<B, NoMemory>,
) -> Result<(A, B), NoMemory>
    ensures { IfOk result (λ p. (first ≡ Ok p.0) × (second ≡ Ok p.1)) }
{
    let first = first?;
    let second = second?;
    Ok((first, second))
}

/// Copies of two values.
pub fn copy_two<A: Copied, B: Copied>(alloc: Global, a: &A, b: &B) -> Result<(A, B), NoMemory>
    ensures { IfOk result (λ p. p ≡ (a.now, b.now)) }
{
    both(a.copy(alloc), b.copy(alloc))
}

/// Copies of three values.
pub fn copy_three<A: Copied, B: Copied, C: Copied>(
    alloc: Global,
    a: &A,
    b: &B,
    c: &C,
) -> Result<(A, B, C), NoMemory>
    ensures { IfOk result (λ t. t ≡ (a.now, b.now, c.now)) }
{
    let a = a.copy(alloc)?;
    let (b, c) = copy_two(alloc, b, c)?;
    Ok((a, b, c))
}

impl Copied for Name {
    fn copy(&self, alloc: Global) -> Result<Name, NoMemory> {
        Name::of(alloc, self.as_str())
    }
}

impl Copied for Chars {
    fn copy(&self, alloc: Global) -> Result<Chars, NoMemory> {
        Chars::of(alloc, self.as_str())
    }
}

impl Copied for Value {
    fn copy(&self, alloc: Global) -> Result<Value, NoMemory> {
        match self {
            Value::Flag(flag) => Ok(Value::Flag(*flag)),
            Value::Number(number) => Ok(Value::Number(*number)),
            Value::Word(word) => Ok(Value::Word(word.copy(alloc)?)),
        }
    }
}

impl Copied for Domain {
    fn copy(&self, alloc: Global) -> Result<Domain, NoMemory> {
        match self {
            Domain::Flags => Ok(Domain::Flags),
            Domain::Numbers(numbers) => Ok(Domain::Numbers(Many::from_slice(
                alloc,
                numbers.as_slice(),
            )?)),
            Domain::Range { low, high } => Ok(Domain::Range {
                low: *low,
                high: *high,
            }),
            Domain::Words(words) => Ok(Domain::Words(copy_all(alloc, words.as_slice())?)),
        }
    }
}

#[cycle(copied_conds)]
fn copy_cond(alloc: Global, cond: &Cond) -> Result<Cond, NoMemory>
    ensures { IfOk result (λ copy. copy ≡ cond.now) }
{
    match cond {
        Cond::Always => Ok(Cond::Always),
        Cond::Never => Ok(Cond::Never),
        Cond::Ext { name, needs } => {
            let needs = Many::from_slice(alloc, needs.as_slice());
            let (name, needs) = both(name.copy(alloc), needs)?;
            Ok(Cond::Ext { name, needs })
        }
        Cond::Param { name, test, value } => {
            let (name, value) = copy_two(alloc, name, value)?;
            let test = *test;
            Ok(Cond::Param { name, test, value })
        }
        Cond::All(parts) => Ok(Cond::All(copy_conds(alloc, parts.as_slice())?)),
        Cond::Any(parts) => Ok(Cond::Any(copy_conds(alloc, parts.as_slice())?)),
        Cond::One(parts) => Ok(Cond::One(copy_conds(alloc, parts.as_slice())?)),
        Cond::Not(part) => Ok(Cond::Not(Boxed::new(alloc, copy_cond(alloc, part.get())?)?)),
    }
}

#[cycle(copied_conds)]
fn copy_conds(alloc: Global, conds: &[Cond]) -> Result<Conds, NoMemory>
    ensures { IfOk result (λ copies. copies ≡ conds.now) }
{
    let mut copies = Many::new(alloc);
    for cond in conds {
        copies.push(copy_cond(alloc, cond)?)?;
    }
    Ok(copies)
}

impl Copied for Cond {
    fn copy(&self, alloc: Global) -> Result<Cond, NoMemory> {
        copy_cond(alloc, self)
    }
}

#[cycle(copied_proofs)]
fn copy_proof(alloc: Global, proof: &Proof) -> Result<Proof, NoMemory>
    ensures { IfOk result (λ copy. copy ≡ proof.now) }
{
    match proof {
        Proof::Leaf { constraint } => Ok(Proof::Leaf {
            constraint: *constraint,
        }),
        Proof::Split {
            param,
            place,
            parts,
        } => Ok(Proof::Split {
            param: *param,
            place: *place,
            parts: copy_proofs(alloc, parts.as_slice())?,
        }),
        Proof::Cut {
            place,
            at,
            below,
            from,
        } => {
            let (place, at) = (*place, *at);
            let (below, from) = both(
                copy_boxed_proof(alloc, below.get()),
                copy_boxed_proof(alloc, from.get()),
            )?;
            Ok(Proof::Cut {
                place,
                at,
                below,
                from,
            })
        }
    }
}

// A copy in a box of its own.
#[cycle(copied_proofs)]
fn copy_boxed_proof(alloc: Global, proof: &Proof) -> Result<Boxed<Proof>, NoMemory>
    ensures { IfOk result (λ copy. copy ≡ proof.now) }
{
    Boxed::new(alloc, copy_proof(alloc, proof)?)
}

#[cycle(copied_proofs)]
fn copy_proofs(alloc: Global, proofs: &[Proof]) -> Result<Proofs, NoMemory>
    ensures { IfOk result (λ copies. copies ≡ proofs.now) }
{
    let mut copies = Many::new(alloc);
    for proof in proofs {
        copies.push(copy_proof(alloc, proof)?)?;
    }
    Ok(copies)
}

impl Copied for Proof {
    fn copy(&self, alloc: Global) -> Result<Proof, NoMemory> {
        copy_proof(alloc, self)
    }
}

impl Copied for ExtSpace {
    fn copy(&self, alloc: Global) -> Result<ExtSpace, NoMemory> {
        let versions = Many::from_slice(alloc, self.versions.as_slice());
        let (versions, (name, needs)) = both(versions, copy_two(alloc, &self.name, &self.needs))?;
        Ok(ExtSpace {
            name,
            versions,
            needs,
        })
    }
}

impl Copied for ParamSpace {
    fn copy(&self, alloc: Global) -> Result<ParamSpace, NoMemory> {
        let ((name, domain), (defined, needs)) = both(
            copy_two(alloc, &self.name, &self.domain),
            copy_two(alloc, &self.defined, &self.needs),
        )?;
        Ok(ParamSpace {
            name,
            domain,
            defined,
            needs,
        })
    }
}

impl Copied for Space {
    fn copy(&self, alloc: Global) -> Result<Space, NoMemory> {
        let extensions = copy_all(alloc, self.extensions.as_slice());
        let (extensions, params) = both(extensions, copy_all(alloc, self.params.as_slice()))?;
        Ok(Space { extensions, params })
    }
}

impl Copied for Full {
    fn copy(&self, alloc: Global) -> Result<Full, NoMemory> {
        let extensions = Many::from_slice(alloc, self.extensions.as_slice());
        let (extensions, params) = both(extensions, copy_all(alloc, self.params.as_slice()))?;
        Ok(Full { extensions, params })
    }
}

impl Copied for Partial {
    fn copy(&self, alloc: Global) -> Result<Partial, NoMemory> {
        Ok(Partial {
            constraints: copy_all(alloc, self.constraints.as_slice())?,
        })
    }
}
