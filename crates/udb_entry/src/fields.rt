//! The fields of control and status registers.

ghost use Rattle.std.specs.Prelude.{◌≡◌, codes, map, IfOk, Some, None};
ghost use Rattle.udb_entry.specs.Keys as keys;
ghost use Rattle.udb_entry.specs.Entries as spec;
ghost use Rattle.udb_entry.specs.Rules as rules;
ghost use Rattle.udb_entry.specs.First as order;
ghost use Rattle.udb_entry.specs.Parts.{Reads, ReadsBy, Gathers, IsGathered};

use crate::answers::{Breach, EntryFault};
use crate::bodies::field_body;
use crate::chains::{both_read, breach_of, examined};
use crate::conditions::condition;
use crate::keys::{number_at, pairs_at, text_at, text_in, value_at};
use crate::rules::{field_name_rule, one_line};
use entry_place::field_place;
use entry_tree::{FieldEntries, FieldEntry};
use idl_tree::{BitPart, Body, FieldBodies, FieldKind, FieldPlaces, FieldType, ResetValue};
use std::alloc::{AllocError, Global};
use udb_base::{Chars, Cond, Many, Name, NoMemory, both};
use yaml_spec::{Pair, Tree};

// ---- places

fn place(alloc: Global, pair: &Pair, key: &str) -> Result<Option<BitPart>, EntryFault>
    ensures { ReadsBy 7 (rules.one_place_rule pair.now key.now)
        (spec.place_at pair.now.value key.now) result }
{
    match value_at(&pair.value, key) {
        Some(value) => match field_place(alloc, value)? {
            Some(place) => Ok(Some(place)),
            None => Err(breach_of(7, one_line(alloc, pair.key.as_str()))),
        },
        None => Ok(None),
    }
}

type PlaceParts = (Option<BitPart>, (Option<BitPart>, Option<BitPart>));

fn places_with(parts: PlaceParts) -> FieldPlaces
    ensures { result ≡ spec.places_with parts }
{
    let (whole, (rv32, rv64)) = parts;
    match whole {
        Some(place) => FieldPlaces::All(place),
        None => FieldPlaces::ByBase { rv32, rv64 },
    }
}

fn places(alloc: Global, pair: &Pair) -> Result<FieldPlaces, EntryFault>
    ensures { Reads (order.places_breach pair.now)
        (spec.places_of pair.now.value) result }
{
    let rv32 = place(alloc, pair, "location_rv32");
    let rv64 = place(alloc, pair, "location_rv64");
    let by_base = both_read(rv32, rv64);
    match both_read(place(alloc, pair, "location"), by_base) {
        Ok(parts) => Ok(places_with(parts)),
        Err(fault) => Err(fault),
    }
}

// ---- types and values at reset

fn type_of(text: &str) -> FieldType
    ensures { result ≡ spec.type_of text.now }
{
    if text == "RO" {
        FieldType::RO
    } else if text == "RO-H" {
        FieldType::ROH
    } else if text == "RW" {
        FieldType::RW
    } else if text == "RW-R" {
        FieldType::RWR
    } else if text == "RW-H" {
        FieldType::RWH
    } else {
        FieldType::RWRH
    }
}

fn kind_of(computed: Option<Body>, given: FieldType) -> FieldKind
    ensures { result ≡ spec.kind_by computed given }
{
    match computed {
        Some(body) => FieldKind::Computed(body),
        None => FieldKind::Plain(given),
    }
}

fn kind(alloc: Global, pair: &Pair) -> Result<FieldKind, EntryFault>
    ensures { ReadsBy 9 (rules.field_body_rule pair.now (codes "type()"))
        (spec.kind_in pair.now.value) result }
{
    let computed = field_body(alloc, pair, "type()")?;
    Ok(kind_of(computed, type_of(text_at(&pair.value, "type"))))
}

fn reset_of(computed: Option<Body>, given: u64) -> ResetValue
    ensures { result ≡ spec.reset_by computed given }
{
    match computed {
        Some(body) => ResetValue::Computed(body),
        None => ResetValue::Plain(given),
    }
}

fn reset(alloc: Global, pair: &Pair) -> Result<ResetValue, EntryFault>
    ensures { ReadsBy 9 (rules.field_body_rule pair.now (codes "reset_value()"))
        (spec.reset_in pair.now.value) result }
{
    let computed = field_body(alloc, pair, "reset_value()")?;
    Ok(reset_of(computed, number_at(&pair.value, "reset_value")))
}

// ---- texts

fn text_if_any(alloc: Global, tree: &Tree, key: &str) -> Result<Option<Chars>, NoMemory>
    ensures { IfOk result (λ text. text ≡ spec.text_if_any tree.now key.now) }
{
    match value_at(tree, key) {
        Some(value) => Ok(Some(Chars::of(alloc, text_in(value))?)),
        None => Ok(None),
    }
}

type TextParts = (Name, (Option<Chars>, Option<Chars>));

fn texts(alloc: Global, pair: &Pair) -> Result<TextParts, EntryFault>
    ensures { Reads None (spec.field_texts pair.now) result }
{
    let name = Name::of(alloc, pair.key.as_str());
    let long_name = text_if_any(alloc, &pair.value, "long_name");
    let description = text_if_any(alloc, &pair.value, "description");
    Ok(both(name, both(long_name, description))?)
}

// ---- fields

type BodyParts = (FieldKind, (ResetValue, Option<Body>));

fn bodies(alloc: Global, pair: &Pair) -> Result<BodyParts, EntryFault>
    ensures { Reads (order.bodies_breach pair.now)
        (spec.field_bodies pair.now.value) result }
{
    let write = field_body(alloc, pair, "sw_write(csr_value)");
    let tail = both_read(reset(alloc, pair), write);
    both_read(kind(alloc, pair), tail)
}

type FieldParts = (FieldPlaces, (Cond, (BodyParts, TextParts)));

fn field_with(parts: FieldParts) -> FieldEntry
    ensures { result ≡ spec.field_with parts }
{
    let (places, (present, (bodies, texts))) = parts;
    let (kind, (reset, write)) = bodies;
    let (name, (long_name, description)) = texts;
    FieldEntry {
        bodies: FieldBodies {
            name,
            present,
            places,
            kind,
            reset,
            write,
        },
        long_name,
        description,
    }
}

fn field(alloc: Global, pair: &Pair) -> Result<FieldEntry, EntryFault>
    ensures { Reads (order.field_breach pair.now) (spec.field_of pair.now) result }
{
    let name = examined(4, field_name_rule(alloc, pair));
    let present = condition(alloc, &pair.value, "definedBy");
    let tail = both_read(bodies(alloc, pair), texts(alloc, pair));
    let inner = both_read(present, tail);
    let rest = both_read(places(alloc, pair), inner);
    match both_read(name, rest) {
        Ok(parts) => Ok(field_with(parts.1)),
        Err(fault) => Err(fault),
    }
}

fn earlier(first: Option<Breach>, second: Breach) -> Option<Breach>
    ensures { result ≡ order.earlier first (Some second) }
{
    match first {
        Some(first) => {
            if second.rule < first.rule {
                Some(second)
            } else {
                Some(first)
            }
        }
        None => Some(second),
    }
}

// One more part: what was read goes into a list, a breach beside the earlier ones.
fn gather<T: Drop>(
    read: Result<T, EntryFault>,
    list: &mut Many<T>,
    worst: Option<Breach>,
) -> Result<Option<Breach>, NoMemory>
    ensures { Gathers read list.old worst list.new result }
{
    match read {
        Ok(part) => {
            list.push(part)?;
            Ok(worst)
        }
        Err(EntryFault::Memory) => Err(AllocError),
        Err(EntryFault::Broken { rule, shows }) => Ok(earlier(worst, Breach { rule, shows })),
    }
}

fn gather_field(
    alloc: Global,
    pair: &Pair,
    list: &mut FieldEntries,
    worst: Option<Breach>,
) -> Result<Option<Breach>, NoMemory>
    ensures { IfOk result (IsGathered (order.field_breach pair.now)
        (spec.field_of pair.now) list.old worst list.new) }
{
    gather(field(alloc, pair), list, worst)
}

fn fields_of(alloc: Global, pairs: &[Pair]) -> Result<FieldEntries, EntryFault>
    ensures { Reads (order.fields_breach pairs.now) (map spec.field_of pairs.now) result }
{
    let mut list = Many::new(alloc);
    let mut worst = None;
    for pair in pairs {
        worst = gather_field(alloc, pair, &mut list, worst)?;
    }
    match worst {
        Some(Breach { rule, shows }) => Err(EntryFault::Broken { rule, shows }),
        None => Ok(list),
    }
}

/// The fields of a register, in the order of the text. All are read, since of what they break the
/// least rule counts: 4 is that names have their alphabet, 7 that places are well formed, 8 that
/// conditions can be read, 9 that bodies can be.
pub fn fields(alloc: Global, tree: &Tree) -> Result<FieldEntries, EntryFault>
    ensures { Reads (order.fields_breach (keys.pairs_at tree.now (codes "fields")))
        (map spec.field_of (keys.pairs_at tree.now (codes "fields"))) result }
{
    fields_of(alloc, pairs_at(tree, "fields"))
}
