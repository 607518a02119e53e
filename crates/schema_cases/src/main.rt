//! Cases of schemas, one a line: the JSON text of a schema, ` :: `, and a YAML text in which `\n` is
//! a line feed and `\` before any other character is that character. Each line is printed again,
//! and below it `syntax` or `bad word` where the first text is no schema, else `ok` or the first
//! failing place of the tree with the word that fails there. `twice` in place of a schema stands for
//! one that no JSON text spells: its words are `items` with lists of whole numbers from 1, and
//! `items` with lists of at most one item.
#![tactic(auto)]

use case_text::text_of;
use std::alloc::{AllocError, Global};
use std::io;
use udb_base::{Many, both};
use udb_schema::{Schema, SchemaFault, SchemaTextFault, SchemaWord, SchemaWords, Word};
use udb_yaml::{Tree, YamlFault, read_tree};

/// A word as schemas spell it.
fn word_name(word: Word) -> &'static str {
    match word {
        Word::Type => "type",
        Word::Enum => "enum",
        Word::Const => "const",
        Word::Minimum => "minimum",
        Word::Maximum => "maximum",
        Word::MinLength => "minLength",
        Word::MinItems => "minItems",
        Word::MaxItems => "maxItems",
        Word::UniqueItems => "uniqueItems",
        Word::MinProperties => "minProperties",
        Word::MaxProperties => "maxProperties",
        Word::Required => "required",
        Word::AdditionalProperties => "additionalProperties",
        Word::Properties => "properties",
        Word::Items => "items",
        Word::AllOf => "allOf",
        Word::AnyOf => "anyOf",
        Word::OneOf => "oneOf",
        Word::Not => "not",
    }
}

fn fault_text(alloc: Global, fault: SchemaFault) -> Result<String, AllocError> {
    match fault {
        SchemaFault::Memory => "no memory".to_string(alloc),
        SchemaFault::At { path, word } => {
            let path = path.as_str();
            format!(in alloc; "{path:?} {}", word_name(word))
        }
    }
}

fn found(alloc: Global, schema: &Schema, tree: &Tree) -> Result<String, AllocError> {
    match schema.validate(alloc, tree) {
        Ok(()) => "ok".to_string(alloc),
        Err(fault) => fault_text(alloc, fault),
    }
}

fn unread(alloc: Global, fault: YamlFault) -> Result<String, AllocError> {
    format!(in alloc; "no tree: {fault:?}")
}

fn of_text(alloc: Global, schema: &Schema, text: &str) -> Result<String, AllocError> {
    match read_tree(alloc, text) {
        Ok(tree) => found(alloc, schema, &tree),
        Err(fault) => unread(alloc, fault),
    }
}

fn schema_fault_text(alloc: Global, fault: SchemaTextFault) -> Result<String, AllocError> {
    match fault {
        SchemaTextFault::Memory => "no memory".to_string(alloc),
        SchemaTextFault::Syntax => "syntax".to_string(alloc),
        SchemaTextFault::BadWord => "bad word".to_string(alloc),
    }
}

fn one<T: Drop>(alloc: Global, item: T) -> Result<Many<T>, AllocError> {
    let mut items = Many::new(alloc);
    items.push(item)?;
    Ok(items)
}

fn two<T: Drop>(alloc: Global, first: T, second: T) -> Result<Many<T>, AllocError> {
    let mut items = one(alloc, first)?;
    items.push(second)?;
    Ok(items)
}

fn items(words: Result<SchemaWords, AllocError>) -> Result<SchemaWord, AllocError> {
    Ok(SchemaWord::Items(Schema { words: words? }))
}

/// A schema with two words of one kind: an item has to meet both.
fn twice(alloc: Global) -> Result<Schema, AllocError> {
    let inner = items(one(alloc, SchemaWord::Minimum(1)));
    let (first, second) = both(
        items(inner.and_then(|word| one(alloc, word))),
        items(one(alloc, SchemaWord::MaxItems(1))),
    )?;
    Ok(Schema {
        words: two(alloc, first, second)?,
    })
}

fn schema_of(alloc: Global, text: &str) -> Result<Schema, SchemaTextFault> {
    if text == "twice" {
        return twice(alloc).map_err(|_| SchemaTextFault::Memory);
    }
    Schema::from_json(alloc, text)
}

fn case(alloc: Global, line: &str) -> Result<String, AllocError> {
    let (schema, text) = line.split_once(" :: ").unwrap_or((line, ""));
    let text = text_of(alloc, text)?;
    match schema_of(alloc, schema) {
        Ok(schema) => of_text(alloc, &schema, text.as_str()),
        Err(fault) => schema_fault_text(alloc, fault),
    }
}

fn main(rt: HostRuntime) -> io::Result<()> {
    for line in rt.lines(rt.alloc()) {
        let line = line?;
        let told = case(rt.alloc(), line.as_str())?;
        println!(rt; "{line}\n    {}", told.as_str())?;
    }
    Ok(())
}
