//! The entries that trees give, each with the first of its kind's rules that it breaks.

ghost use Rattle.std.specs.Prelude.{◌≡◌, IfOk, None, map, codes, true};
ghost use Rattle.udb_base.specs.declared.kinds.Kind.TheVariants as kind;
ghost use Rattle.udb_entry.specs.Keys as keys;
ghost use Rattle.udb_entry.specs.Entries as spec;
ghost use Rattle.udb_entry.specs.First as first;
ghost use Rattle.udb_entry.specs.Parts.{Reads};

use crate::answers::{Entry, EntryFault};
use crate::bodies::{functions, operation};
use crate::chains::{both_read, either_read, examined};
use crate::conditions::{condition, implemented, members};
use crate::domains::param_domain;
use crate::encodings::{EncodingParts, forms, variables_rule};
use crate::fields::fields;
use crate::keys::{flag_at, number_at, number_in, pairs_at, text_at, value_at};
use crate::versions::versions;
use cond_tree::read_value;
use entry_tree::{
    ConfigEntry, ConfigKind, CsrEntry, ExtensionEntry, FieldEntries, FunctionsEntry, Given, Givens,
    InstructionEntry, Members, ParamEntry,
};
use idl_tree::{Body, Functions, Length};
use std::alloc::Global;
use udb_base::{Chars, Cond, Domain, Kind, ListedVersions, Many, Name, NoMemory, Value, both};
use yaml_spec::{Pair, Tree};

// ---- texts

fn text_under(alloc: Global, tree: &Tree, key: &str) -> Result<Chars, NoMemory>
    ensures { IfOk result (λ text. text ≡ keys.text_at tree.now key.now) }
{
    Chars::of(alloc, text_at(tree, key))
}

type TitleParts = (Name, (Chars, Chars));

// The name, the long name and the description. A configuration has no long name.
fn titles(alloc: Global, tree: &Tree) -> Result<TitleParts, EntryFault>
    ensures { Reads None (spec.titles_of tree.now) result }
{
    let name = Name::of(alloc, text_at(tree, "name"));
    let long_name = text_under(alloc, tree, "long_name");
    let description = text_under(alloc, tree, "description");
    Ok(both(name, both(long_name, description))?)
}

// ---- extensions and parameters

type ExtensionParts = (ListedVersions, (Cond, TitleParts));

fn extension_with(parts: ExtensionParts) -> ExtensionEntry
    ensures { result ≡ spec.extension_with parts }
{
    let (versions, (needs, titles)) = parts;
    let (name, (long_name, description)) = titles;
    ExtensionEntry {
        name,
        long_name,
        description,
        versions,
        needs,
    }
}

fn extension(alloc: Global, tree: &Tree) -> Result<Entry, EntryFault>
    ensures { Reads (first.kind_breach kind.Extension tree.now)
        (spec.entry_of kind.Extension tree.now) result }
{
    let needs = condition(alloc, tree, "requirements");
    match both_read(versions(alloc, tree), both_read(needs, titles(alloc, tree))) {
        Ok(parts) => Ok(Entry::Extension(extension_with(parts))),
        Err(fault) => Err(fault),
    }
}

type ParamParts = (Domain, (Cond, (Cond, TitleParts)));

fn param_with(parts: ParamParts) -> ParamEntry
    ensures { result ≡ spec.param_with parts }
{
    let (domain, (defined, (needs, titles))) = parts;
    let (name, (long_name, description)) = titles;
    ParamEntry {
        name,
        long_name,
        description,
        domain,
        defined,
        needs,
    }
}

fn param(alloc: Global, tree: &Tree) -> Result<Entry, EntryFault>
    ensures { Reads (first.kind_breach kind.Parameter tree.now)
        (spec.entry_of kind.Parameter tree.now) result }
{
    let defined = condition(alloc, tree, "definedBy");
    let needs = condition(alloc, tree, "requirements");
    let inner = both_read(needs, titles(alloc, tree));
    let conditions = both_read(defined, inner);
    match both_read(param_domain(alloc, tree), conditions) {
        Ok(parts) => Ok(Entry::Param(param_with(parts))),
        Err(fault) => Err(fault),
    }
}

// ---- instructions

fn bits_of_base(tree: &Tree) -> u8
    ensures { result ≡ spec.bits_of_base tree.now }
{
    if number_in(tree) == 64 { 64 } else { 32 }
}

fn own_base(tree: &Tree) -> Option<u8>
    ensures { result ≡ spec.own_base tree.now }
{
    match value_at(tree, "base") {
        Some(value) => Some(bits_of_base(value)),
        None => None,
    }
}

fn assembly(alloc: Global, tree: &Tree) -> Result<Chars, EntryFault>
    ensures { Reads None (keys.text_at tree.now (codes "assembly")) result }
{
    Ok(text_under(alloc, tree, "assembly")?)
}

type InstructionParts = (EncodingParts, (Cond, (Body, (TitleParts, Chars))));

fn instruction_with(tree: &Tree, parts: InstructionParts) -> InstructionEntry
    ensures { result ≡ spec.instruction_with (spec.own_base tree.now) parts }
{
    let (forms, (defined, (operation, texts))) = parts;
    let (titles, assembly) = texts;
    let (name, (long_name, description)) = titles;
    InstructionEntry {
        name,
        long_name,
        description,
        assembly,
        base: own_base(tree),
        encodings: forms.encodings,
        defined,
        operation: Body {
            variables: forms.variables,
            statements: operation.statements,
        },
    }
}

fn instruction(alloc: Global, tree: &Tree) -> Result<Entry, EntryFault>
    ensures { Reads (first.kind_breach kind.Instruction tree.now)
        (spec.entry_of kind.Instruction tree.now) result }
{
    let names = examined(4, variables_rule(alloc, tree));
    let defined = condition(alloc, tree, "definedBy");
    let texts = both_read(titles(alloc, tree), assembly(alloc, tree));
    let tail = both_read(operation(alloc, tree), texts);
    let inner = both_read(defined, tail);
    let rest = both_read(forms(alloc, tree), inner);
    match both_read(names, rest) {
        Ok(parts) => Ok(Entry::Instruction(instruction_with(tree, parts.1))),
        Err(fault) => Err(fault),
    }
}

// ---- registers

fn address_in(number: u64) -> u16
    ensures { result ≡ spec.below 65536 number }
{
    u16::try_from(number).unwrap_or(0)
}

fn address_of(tree: &Tree) -> u16
    ensures { result ≡ spec.address_of tree.now }
{
    address_in(number_at(tree, "address"))
}

fn length_in(tree: &Tree) -> Length
    ensures { result ≡ spec.length_in tree.now }
{
    match number_in(tree) {
        64 => Length::Bits64,
        32 => Length::Bits32,
        _ => Length::Mxlen,
    }
}

fn length_of(tree: &Tree) -> Length
    ensures { result ≡ spec.length_of tree.now }
{
    match value_at(tree, "length") {
        Some(value) => length_in(value),
        None => Length::Mxlen,
    }
}

type CsrParts = ((Cond, TitleParts), FieldEntries);

fn csr_with(tree: &Tree, parts: CsrParts) -> CsrEntry
    ensures { result ≡ spec.csr_with (spec.address_of tree.now) (spec.length_of tree.now) parts }
{
    let (own, fields) = parts;
    let (defined, titles) = own;
    let (name, (long_name, description)) = titles;
    CsrEntry {
        name,
        long_name,
        description,
        address: address_of(tree),
        length: length_of(tree),
        defined,
        fields,
    }
}

fn csr(alloc: Global, tree: &Tree) -> Result<Entry, EntryFault>
    ensures { Reads (first.kind_breach kind.Csr tree.now)
        (spec.entry_of kind.Csr tree.now) result }
{
    let defined = condition(alloc, tree, "definedBy");
    let own = both_read(defined, titles(alloc, tree));
    match either_read(own, fields(alloc, tree)) {
        Ok(parts) => Ok(Entry::Csr(csr_with(tree, parts))),
        Err(fault) => Err(fault),
    }
}

// ---- functions

type FunctionsParts = (TitleParts, Functions);

fn functions_entry_with(parts: FunctionsParts) -> FunctionsEntry
    ensures { result ≡ spec.functions_with parts }
{
    let (titles, functions) = parts;
    let (name, (long_name, description)) = titles;
    FunctionsEntry {
        name,
        long_name,
        description,
        functions,
    }
}

fn functions_entry(alloc: Global, tree: &Tree) -> Result<Entry, EntryFault>
    ensures { Reads (first.kind_breach kind.Functions tree.now)
        (spec.entry_of kind.Functions tree.now) result }
{
    match both_read(titles(alloc, tree), functions(alloc, tree)) {
        Ok(parts) => Ok(Entry::Functions(functions_entry_with(parts))),
        Err(fault) => Err(fault),
    }
}

// ---- configurations

fn kind_of(text: &str) -> ConfigKind
    ensures { result ≡ spec.kind_of text.now }
{
    if text == "unconfigured" {
        ConfigKind::Unconfigured
    } else if text == "partially configured" {
        ConfigKind::Partially
    } else {
        ConfigKind::Fully
    }
}

fn value(alloc: Global, tree: &Tree) -> Result<Value, NoMemory>
    ensures { IfOk result (λ value. value ≡ spec.given_value tree.now) }
{
    match read_value(alloc, tree)? {
        Some(value) => Ok(value),
        None => Ok(Value::Number(0)),
    }
}

fn value_given(alloc: Global, pair: &Pair) -> Result<Given, NoMemory>
    ensures { IfOk result (λ given. given ≡ spec.given_of pair.now) }
{
    let name = Name::of(alloc, pair.key.as_str());
    let (name, value) = both(name, value(alloc, &pair.value))?;
    Ok(Given { name, value })
}

fn values_given(alloc: Global, pairs: &[Pair]) -> Result<Givens, NoMemory>
    ensures { IfOk result (λ givens. givens ≡ map spec.given_of pairs.now) }
{
    let mut givens = Many::new(alloc);
    for pair in pairs {
        givens.push(value_given(alloc, pair)?)?;
    }
    Ok(givens)
}

fn config_kind(tree: &Tree) -> ConfigKind
    ensures { result ≡ spec.config_kind tree.now }
{
    kind_of(text_at(tree, "type"))
}

fn givens(alloc: Global, tree: &Tree) -> Result<Givens, EntryFault>
    ensures { Reads None (map spec.given_of (keys.pairs_at tree.now (codes "params"))) result }
{
    Ok(values_given(alloc, pairs_at(tree, "params"))?)
}

type ConfigParts = (Members, (Members, (Members, (TitleParts, Givens))));

fn config_with(tree: &Tree, parts: ConfigParts) -> ConfigEntry
    ensures { result ≡ spec.config_with (spec.config_kind tree.now)
        (keys.flag_at tree.now (codes "additional_extensions") true) parts }
{
    let (mandatory, (prohibited, (implemented, texts))) = parts;
    let (titles, params) = texts;
    let (name, (_long_name, description)) = titles;
    ConfigEntry {
        name,
        description,
        kind: config_kind(tree),
        params,
        mandatory,
        prohibited,
        additional: flag_at(tree, "additional_extensions", true),
        implemented,
    }
}

fn config(alloc: Global, tree: &Tree) -> Result<Entry, EntryFault>
    ensures { Reads (first.kind_breach kind.Config tree.now)
        (spec.entry_of kind.Config tree.now) result }
{
    let prohibited = members(alloc, tree, "prohibited_extensions");
    let implemented = implemented(alloc, tree, "implemented_extensions");
    let texts = both_read(titles(alloc, tree), givens(alloc, tree));
    let tail = both_read(implemented, texts);
    let inner = both_read(prohibited, tail);
    let mandatory = members(alloc, tree, "mandatory_extensions");
    match both_read(mandatory, inner) {
        Ok(parts) => Ok(Entry::Config(config_with(tree, parts))),
        Err(fault) => Err(fault),
    }
}

// ---- kinds

/// The entry of a kind that a tree gives, or the first of the kind's rules that it breaks.
pub fn entry_of(alloc: Global, kind: Kind, tree: &Tree) -> Result<Entry, EntryFault>
    ensures { Reads (first.kind_breach kind tree.now) (spec.entry_of kind tree.now) result }
{
    match kind {
        Kind::Extension => extension(alloc, tree),
        Kind::Parameter => param(alloc, tree),
        Kind::Instruction => instruction(alloc, tree),
        Kind::Csr => csr(alloc, tree),
        Kind::Functions => functions_entry(alloc, tree),
        Kind::Config => config(alloc, tree),
    }
}
