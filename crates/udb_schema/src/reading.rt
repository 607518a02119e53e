//! Schemas from JSON.

ghost use Rattle.std.specs.Prelude.{◌≡◌, ◌≢◌, if◌then◌else◌, Ok, Err, Option, IfOk, IfErr, OnErr, None, Some, option_map, option_and_then, string_bytes, map};
ghost use Rattle.serde_json.specs.Read.{read};
ghost use Rattle.serde_json.specs.View.{view, items_view, members_view};
ghost use Rattle.serde_json.specs.Find.{as_str};
ghost use Rattle.udb_base.specs.Lists.{one, each};
ghost use Rattle.udb_schema.specs.declared.words.Schema.{Schema};
ghost use Rattle.yaml_spec.specs.Line as line;
ghost use Rattle.udb_schema.specs.Spelled as spec;
ghost use Rattle.udb_schema.specs.Reading.{IsMade, Answers, additional_word, some_schemas, word_with, word_under};
ghost use Rattle.udb_schema.specs.declared.words.SchemaWord.TheVariants as w;
ghost use Rattle.udb_schema.specs.declared.words.Additional.TheVariants as a;
ghost use Rattle.udb_schema.specs.declared.reading.SchemaTextFault.TheVariants as fault;

use crate::words::{
    Additional, Names, Schema, SchemaProperties, SchemaProperty, SchemaWord, SchemaWords, Schemas,
    TypeName, TypeNames, Word,
};
use serde_json::{Map, Value};
use std::alloc::Global;
use udb_base::{Chars, Many, NoMemory, are_distinct, both};
use yaml_spec::{Pair, Pairs, Tree, Trees};

/// Why a text is no schema.
#[derive(Drop)]
pub enum SchemaTextFault {
    /// There was no memory.
    Memory,
    /// The text is no JSON value, as `serde_json` reads it.
    Syntax,
    /// The value is no schema: it, or a value where a schema has to stand, is no object, uses a word
    /// that isn't one of `Word`, or has a word with a wrong operand.
    BadWord,
}

// ---- types

fn type_name(text: &str) -> Option<TypeName>
    ensures { result ≡ spec.type_name text.now }
{
    match text {
        "null" => Some(TypeName::Null),
        "boolean" => Some(TypeName::Boolean),
        "integer" => Some(TypeName::Integer),
        "number" => Some(TypeName::Number),
        "string" => Some(TypeName::Text),
        "array" => Some(TypeName::List),
        "object" => Some(TypeName::Map),
        _ => None,
    }
}

/// Texts in an array.
#[tactic(auto, using(udb_base::specs::Lists::part_steps))]
fn texts(alloc: Global, values: &[Value]) -> Result<Option<Names>, NoMemory>
    ensures { IfOk result (λ o. o ≡ spec.each_item as_str (items_view values.now)) }
{
    let mut texts = Many::new(alloc);
    for value in values {
        match value.as_str() {
            Some(text) => texts.push(Chars::of(alloc, text)?)?,
            None => return Ok(None),
        }
    }
    Ok(Some(texts))
}

/// Distinct texts in an array.
fn distinct_texts(alloc: Global, values: &[Value]) -> Result<Option<Names>, NoMemory>
    ensures { IfOk result (λ o. o ≡ spec.distinct_texts (items_view values.now)) }
{
    let texts = texts(alloc, values)?;
    Ok(texts.filter(|texts| are_distinct(texts.as_slice())))
}

#[tactic(auto, using(udb_base::specs::Lists::part_steps))]
fn names(alloc: Global, texts: &[Chars]) -> Result<Option<TypeNames>, NoMemory>
    ensures { IfOk result (λ o. o ≡ each spec.type_name texts.now) }
{
    let mut names = Many::new(alloc);
    for text in texts {
        match type_name(text.as_str()) {
            Some(name) => names.push(name)?,
            None => return Ok(None),
        }
    }
    Ok(Some(names))
}

fn one_name(alloc: Global, text: &str) -> Result<Option<TypeNames>, NoMemory>
    ensures { IfOk result (λ o. o ≡ one (spec.type_name text.now)) }
{
    let Some(name) = type_name(text) else {
        return Ok(None);
    };
    let mut names = Many::new(alloc);
    names.push(name)?;
    Ok(Some(names))
}

fn names_in(alloc: Global, values: &[Value]) -> Result<Option<TypeNames>, NoMemory>
    ensures { IfOk result (λ o. o ≡ spec.distinct_names (items_view values.now)) }
{
    match distinct_texts(alloc, values)? {
        Some(texts) => names(alloc, texts.as_slice()),
        None => Ok(None),
    }
}

fn if_any<T: Drop>(items: Option<Many<T>>) -> Option<Many<T>>
    ensures { result ≡ option_and_then spec.if_any items }
{
    items.filter(|items| !items.is_empty())
}

fn types(alloc: Global, value: &Value) -> Result<Option<TypeNames>, NoMemory>
    ensures { IfOk result (λ o. o ≡ spec.types (view value.now)) }
{
    match value {
        Value::String(text) => one_name(alloc, text.as_str()),
        Value::Array(values) => Ok(if_any(names_in(alloc, values.as_slice())?)),
        _ => Ok(None),
    }
}

fn keys(alloc: Global, value: &Value) -> Result<Option<Names>, NoMemory>
    ensures { IfOk result (λ o. o ≡ spec.keys (view value.now)) }
{
    match value {
        Value::Array(values) => distinct_texts(alloc, values.as_slice()),
        _ => Ok(None),
    }
}

// ---- numbers

fn whole(value: &Value) -> Option<i128>
    ensures { result ≡ spec.whole (view value.now) }
{
    match value {
        Value::Number(number) => number.as_i128(),
        _ => None,
    }
}

fn count(value: &Value) -> Option<u64>
    ensures { result ≡ spec.count (view value.now) }
{
    value.as_u64()
}

// ---- trees

#[cycle(trees)]
fn tree(alloc: Global, value: &Value) -> Result<Option<Tree>, NoMemory>
    ensures { IfOk result (λ o. o ≡ spec.tree_of (view value.now)) }
{
    match value {
        Value::Null => Ok(Some(Tree::Null)),
        Value::Bool(flag) => Ok(Some(Tree::Flag(*flag))),
        Value::Number(number) => Ok(number.as_i128().map(Tree::Int)),
        Value::String(text) => Ok(Some(Tree::Text(Chars::of(alloc, text.as_str())?))),
        Value::Array(values) => Ok(trees(alloc, values.as_slice())?.map(Tree::List)),
        Value::Object(members) => Ok(pairs(alloc, members)?.map(Tree::Map)),
    }
}

#[cycle(trees)]
#[tactic(auto, using(udb_base::specs::Lists::part_steps))]
fn trees(alloc: Global, values: &[Value]) -> Result<Option<Trees>, NoMemory>
    ensures { IfOk result (λ o. o ≡ spec.trees_of (items_view values.now)) }
{
    let mut trees = Many::new(alloc);
    for value in values {
        match tree(alloc, value)? {
            Some(tree) => trees.push(tree)?,
            None => return Ok(None),
        }
    }
    Ok(Some(trees))
}

/// The entry of a key and a value, where the value is there.
fn pair(
    alloc: Global,
    key: &str,
    value: Result<Option<Tree>, NoMemory>,
) -> Result<Option<Pair>, NoMemory>
    ensures { IfOk result (λ o. IsMade (line.pair key.now) value o) }
{
    let (value, key) = both(value, Chars::of(alloc, key))?;
    Ok(value.map(|value| Pair { key, value }))
}

#[cycle(trees)]
#[tactic(auto, using(udb_base::specs::Lists::part_steps))]
fn pairs(alloc: Global, members: &Map<String, Value>) -> Result<Option<Pairs>, NoMemory>
    ensures { IfOk result (λ o. o ≡ spec.pairs_of (members_view members.now.entries)) }
{
    let mut pairs = Many::new(alloc);
    for (key, member) in members.iter() {
        match pair(alloc, key.as_str(), tree(alloc, member))? {
            Some(pair) => pairs.push(pair)?,
            None => return Ok(None),
        }
    }
    Ok(Some(pairs))
}

fn tree_list(alloc: Global, value: &Value) -> Result<Option<Trees>, NoMemory>
    ensures { IfOk result (λ o. o ≡ spec.tree_list (view value.now)) }
{
    match value {
        Value::Array(values) => trees(alloc, values.as_slice()),
        _ => Ok(None),
    }
}

// ---- words

fn word_named(text: &str) -> Option<Word>
    ensures { result ≡ spec.word_named text.now }
{
    match text {
        "type" => Some(Word::Type),
        "enum" => Some(Word::Enum),
        "const" => Some(Word::Const),
        "minimum" => Some(Word::Minimum),
        "maximum" => Some(Word::Maximum),
        "minLength" => Some(Word::MinLength),
        "minItems" => Some(Word::MinItems),
        "maxItems" => Some(Word::MaxItems),
        "uniqueItems" => Some(Word::UniqueItems),
        "minProperties" => Some(Word::MinProperties),
        "maxProperties" => Some(Word::MaxProperties),
        "required" => Some(Word::Required),
        "additionalProperties" => Some(Word::AdditionalProperties),
        "properties" => Some(Word::Properties),
        "items" => Some(Word::Items),
        "allOf" => Some(Word::AllOf),
        "anyOf" => Some(Word::AnyOf),
        "oneOf" => Some(Word::OneOf),
        "not" => Some(Word::Not),
        _ => None,
    }
}

fn type_word(alloc: Global, value: &Value) -> Result<Option<SchemaWord>, NoMemory>
    ensures { IfOk result (λ o. o ≡ option_map w.Type (spec.types (view value.now))) }
{
    Ok(types(alloc, value)?.map(SchemaWord::Type))
}

fn enum_word(alloc: Global, value: &Value) -> Result<Option<SchemaWord>, NoMemory>
    ensures { IfOk result (λ o. o ≡ option_map w.Enum (spec.tree_list (view value.now))) }
{
    Ok(tree_list(alloc, value)?.map(SchemaWord::Enum))
}

fn const_word(alloc: Global, value: &Value) -> Result<Option<SchemaWord>, NoMemory>
    ensures { IfOk result (λ o. o ≡ option_map w.Const (spec.tree_of (view value.now))) }
{
    Ok(tree(alloc, value)?.map(SchemaWord::Const))
}

fn required_word(alloc: Global, value: &Value) -> Result<Option<SchemaWord>, NoMemory>
    ensures { IfOk result (λ o. o ≡ option_map w.Required (spec.keys (view value.now))) }
{
    Ok(keys(alloc, value)?.map(SchemaWord::Required))
}

#[cycle(schemas)]
fn additional_word(alloc: Global, value: &Value) -> Result<Option<SchemaWord>, NoMemory>
    ensures { IfOk result (λ o. o ≡ additional_word (view value.now)) }
{
    if let Some(is_open) = value.as_bool() {
        return Ok(closed_word(is_open));
    }
    match schema(alloc, value)? {
        Some(schema) => Ok(Some(SchemaWord::AdditionalProperties(Additional::Meets(schema)))),
        None => Ok(None),
    }
}

fn closed_word(is_open: bool) -> Option<SchemaWord>
    ensures { result ≡ (if is_open then None else Some (w.AdditionalProperties a.Closed)) }
{
    if is_open {
        None
    } else {
        Some(SchemaWord::AdditionalProperties(Additional::Closed))
    }
}

#[cycle(schemas)]
fn schema_list(alloc: Global, value: &Value) -> Result<Option<Schemas>, NoMemory>
    ensures { IfOk result (λ o. o ≡ some_schemas (view value.now)) }
{
    match value {
        Value::Array(values) => Ok(if_any(schemas(alloc, values.as_slice())?)),
        _ => Ok(None),
    }
}

#[cycle(schemas)]
fn property_list(alloc: Global, value: &Value) -> Result<Option<SchemaProperties>, NoMemory>
    ensures { IfOk result (λ o. o ≡ spec.property_list (view value.now)) }
{
    match value {
        Value::Object(members) => properties(alloc, members),
        _ => Ok(None),
    }
}

/// A word with its operand.
#[cycle(schemas)]
fn operand(alloc: Global, word: Word, value: &Value) -> Result<Option<SchemaWord>, NoMemory>
    ensures { IfOk result (λ o. o ≡ word_with (view value.now) word) }
{
    match word {
        Word::Type => type_word(alloc, value),
        Word::Enum => enum_word(alloc, value),
        Word::Const => const_word(alloc, value),
        Word::Minimum => Ok(whole(value).map(SchemaWord::Minimum)),
        Word::Maximum => Ok(whole(value).map(SchemaWord::Maximum)),
        Word::MinLength => Ok(count(value).map(SchemaWord::MinLength)),
        Word::MinItems => Ok(count(value).map(SchemaWord::MinItems)),
        Word::MaxItems => Ok(count(value).map(SchemaWord::MaxItems)),
        Word::UniqueItems => Ok(value.as_bool().map(SchemaWord::UniqueItems)),
        Word::MinProperties => Ok(count(value).map(SchemaWord::MinProperties)),
        Word::MaxProperties => Ok(count(value).map(SchemaWord::MaxProperties)),
        Word::Required => required_word(alloc, value),
        Word::AdditionalProperties => additional_word(alloc, value),
        Word::Properties => Ok(property_list(alloc, value)?.map(SchemaWord::Properties)),
        Word::Items => Ok(schema(alloc, value)?.map(SchemaWord::Items)),
        Word::AllOf => Ok(schema_list(alloc, value)?.map(SchemaWord::AllOf)),
        Word::AnyOf => Ok(schema_list(alloc, value)?.map(SchemaWord::AnyOf)),
        Word::OneOf => Ok(schema_list(alloc, value)?.map(SchemaWord::OneOf)),
        Word::Not => Ok(schema(alloc, value)?.map(SchemaWord::Not)),
    }
}

#[cycle(schemas)]
fn word(alloc: Global, key: &str, value: &Value) -> Result<Option<SchemaWord>, NoMemory>
    ensures { IfOk result (λ o. o ≡ word_under key.now (view value.now)) }
{
    match word_named(key) {
        Some(word) => operand(alloc, word, value),
        None => Ok(None),
    }
}

#[cycle(schemas)]
#[tactic(auto, using(udb_base::specs::Lists::part_steps))]
fn words(alloc: Global, members: &Map<String, Value>) -> Result<Option<SchemaWords>, NoMemory>
    ensures { IfOk result (λ o. o ≡ spec.words_of (members_view members.now.entries)) }
{
    let mut words = Many::new(alloc);
    for (key, member) in members.iter() {
        match word(alloc, key.as_str(), member)? {
            Some(word) => words.push(word)?,
            None => return Ok(None),
        }
    }
    Ok(Some(words))
}

/// The property of a key and a schema, where the schema is there.
fn property(
    alloc: Global,
    key: &str,
    schema: Result<Option<Schema>, NoMemory>,
) -> Result<Option<SchemaProperty>, NoMemory>
    ensures { IfOk result (λ o. IsMade (spec.property key.now) schema o) }
{
    let (schema, key) = both(schema, Chars::of(alloc, key))?;
    Ok(schema.map(|schema| SchemaProperty { key, schema }))
}

#[cycle(schemas)]
#[tactic(auto, using(udb_base::specs::Lists::part_steps))]
fn properties(
    alloc: Global,
    members: &Map<String, Value>,
) -> Result<Option<SchemaProperties>, NoMemory>
    ensures { IfOk result (λ o. o ≡ spec.properties_of (members_view members.now.entries)) }
{
    let mut properties = Many::new(alloc);
    for (key, member) in members.iter() {
        match property(alloc, key.as_str(), schema(alloc, member))? {
            Some(property) => properties.push(property)?,
            None => return Ok(None),
        }
    }
    Ok(Some(properties))
}

#[cycle(schemas)]
#[tactic(auto, using(udb_base::specs::Lists::part_steps))]
fn schemas(alloc: Global, values: &[Value]) -> Result<Option<Schemas>, NoMemory>
    ensures { IfOk result (λ o. o ≡ spec.schemas_of (items_view values.now)) }
{
    let mut schemas = Many::new(alloc);
    for value in values {
        match schema(alloc, value)? {
            Some(schema) => schemas.push(schema)?,
            None => return Ok(None),
        }
    }
    Ok(Some(schemas))
}

/// The schema that a value spells. `serde_json` nests values at most 127 deep, and so this recursion.
#[cycle(schemas)]
fn schema(alloc: Global, value: &Value) -> Result<Option<Schema>, NoMemory>
    ensures { IfOk result (λ o. o ≡ spec.schema_of (view value.now)) }
{
    match value {
        Value::Object(members) => Ok(words(alloc, members)?.map(|words| Schema { words })),
        _ => Ok(None),
    }
}

/// The schema that a JSON value spells, or why it is none.
fn from_value(alloc: Global, value: &Value) -> Result<Schema, SchemaTextFault>
    ensures ok { IfOk result (λ s. spec.schema_of (view value.now) ≡ Some s) }
    ensures bad { result ≡ Err SchemaTextFault.BadWord → spec.schema_of (view value.now) ≡ None }
    ensures never { result ≢ Err SchemaTextFault.Syntax }
{
    match schema(alloc, value) {
        Ok(Some(schema)) => Ok(schema),
        Ok(None) => Err(SchemaTextFault::BadWord),
        Err(_) => Err(SchemaTextFault::Memory),
    }
}

fn from_text(alloc: Global, text: &str) -> Result<Schema, SchemaTextFault>
    ensures ok { IfOk result (λ s. spec.spelled text.now ≡ Some s) }
    ensures syntax { result ≡ Err SchemaTextFault.Syntax → read text.now ≡ None }
    ensures bad { result ≡ Err SchemaTextFault.BadWord → spec.IsNoSchema text.now }
{
    match Value::from_str(alloc, text) {
        Ok(value) => from_value(alloc, &value),
        Err(error) => {
            if error.is_memory() {
                Err(SchemaTextFault::Memory)
            } else {
                Err(SchemaTextFault::Syntax)
            }
        }
    }
}

impl Schema {
    /// The schema that a JSON text spells (JSON Schema 2020-12, core 4.3, with the words of `Word`).
    /// Its words, and the properties of a word, stand in the order of their keys' bytes; of equal
    /// keys of an object the last one counts. `Syntax` is answered where the text is no JSON value,
    /// `BadWord` where the value is no schema, and `Memory` for want of memory alone.
    pub fn from_json(alloc: Global, text: &str) -> Result<Schema, SchemaTextFault>
        ensures ok { IfOk result (λ s. spec.spelled text.now ≡ Some s) }
        ensures spelled { (s : Schema) → spec.spelled text.now ≡ Some s → Answers result (Ok s) }
        ensures syntax { result ≡ Err SchemaTextFault.Syntax → read text.now ≡ None }
        ensures no_value { read text.now ≡ None → Answers result (Err SchemaTextFault.Syntax) }
        ensures bad { result ≡ Err SchemaTextFault.BadWord → spec.IsNoSchema text.now }
        ensures no_schema { spec.IsNoSchema text.now → Answers result (Err fault.BadWord) }
    {
        from_text(alloc, text)
    }
}
