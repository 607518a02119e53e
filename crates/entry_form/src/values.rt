//! The schemas of single values and of lists.

ghost use Rattle.std.specs.Prelude.{◌≡◌, ◌∷◌, ◌++◌, [], IfOk, OnOk};
ghost use Rattle.entry_form.specs.Forms as spec;
ghost use Rattle.udb_schema.specs.declared.words.SchemaWord.TheVariants as word;
ghost use Rattle.yaml_spec.specs.declared.tree.Tree.{Tree};

use crate::tables::one_name;
use std::alloc::Global;
use udb_base::{Chars, Many, NoMemory};
use udb_schema::{Schema, SchemaWord, Schemas, TypeName};
use yaml_spec::{Tree, Trees};

/// The largest number of 64 bits.
pub const LARGEST: u64 = 18_446_744_073_709_551_615;

/// The node is of one of these types.
pub fn of_type(alloc: Global, types: &[TypeName]) -> Result<SchemaWord, NoMemory>
    ensures { IfOk result (λ w. w ≡ word.Type types.now) }
{
    Ok(SchemaWord::Type(Many::from_slice(alloc, types)?))
}

/// The schema of one word.
pub fn one_word(alloc: Global, word: SchemaWord) -> Result<Schema, NoMemory>
    ensures { IfOk result (λ s. s ≡ spec.schema (word ∷ [])) }
{
    let mut words = Many::new(alloc);
    words.push(word)?;
    Ok(Schema { words })
}

#[tactic(auto, unfolding(crate::specs::Forms::any_value))]
pub fn any_value(alloc: Global) -> Schema
    ensures { result ≡ spec.any_value }
{
    Schema {
        words: Many::new(alloc),
    }
}

#[tactic(auto, unfolding(crate::specs::Forms::text_value))]
pub fn text_value(alloc: Global) -> Result<Schema, NoMemory>
    ensures { IfOk result (λ s. s ≡ spec.text_value) }
{
    one_word(alloc, of_type(alloc, &[TypeName::Text])?)
}

#[tactic(auto, unfolding(crate::specs::Forms::flag_value))]
pub fn flag_value(alloc: Global) -> Result<Schema, NoMemory>
    ensures { IfOk result (λ s. s ≡ spec.flag_value) }
{
    one_word(alloc, of_type(alloc, &[TypeName::Boolean])?)
}

/// A whole number from 0 up to another.
#[tactic(auto, unfolding(crate::specs::Forms::number_to))]
pub fn number_to(alloc: Global, most: u64) -> Result<Schema, NoMemory>
    ensures { IfOk result (λ s. s ≡ spec.number_to most) }
{
    let mut words = Many::new(alloc);
    words.push(of_type(alloc, &[TypeName::Integer])?)?;
    words.push(SchemaWord::Minimum(0))?;
    words.push(SchemaWord::Maximum(i128::from(most)))?;
    Ok(Schema { words })
}

pub fn number_value(alloc: Global) -> Result<Schema, NoMemory>
    ensures { IfOk result (λ s. s ≡ spec.number_value) }
{
    number_to(alloc, LARGEST)
}

#[tactic(auto, unfolding(crate::specs::Forms::text_or_number))]
pub fn text_or_number(alloc: Global) -> Result<Schema, NoMemory>
    ensures { IfOk result (λ s. s ≡ spec.text_or_number) }
{
    one_word(alloc, of_type(alloc, &[TypeName::Text, TypeName::Integer])?)
}

fn text_tree(alloc: Global, text: &str) -> Result<Tree, NoMemory>
    ensures { IfOk result (λ t. t ≡ Tree.Text text.now) }
{
    Ok(Tree::Text(Chars::of(alloc, text)?))
}

/// This text and nothing else.
#[tactic(auto, unfolding(crate::specs::Forms::exactly))]
pub fn exactly(alloc: Global, text: &str) -> Result<Schema, NoMemory>
    ensures { IfOk result (λ s. s ≡ spec.exactly text.now) }
{
    one_word(alloc, SchemaWord::Const(text_tree(alloc, text)?))
}

/// Appends a text to listed values.
pub fn push_text(alloc: Global, to: &mut Trees, text: &str) -> Result<(), NoMemory>
    ensures { OnOk result (to.new ≡ to.old ++ Tree.Text text.now ∷ []) }
{
    to.push(text_tree(alloc, text)?)
}

/// One of these values.
pub fn one_of(alloc: Global, values: Trees) -> Result<Schema, NoMemory>
    ensures { IfOk result (λ s. s ≡ spec.one_of values) }
{
    one_word(alloc, SchemaWord::Enum(values))
}

/// No value, so the key isn't there.
#[tactic(auto, unfolding(crate::specs::Forms::no_value))]
pub fn no_value(alloc: Global) -> Result<Schema, NoMemory>
    ensures { IfOk result (λ s. s ≡ spec.no_value) }
{
    one_word(alloc, SchemaWord::Not(any_value(alloc)))
}

/// A list whose length lies between two numbers.
#[tactic(auto, unfolding(crate::specs::Forms::list_of))]
pub fn list_of(alloc: Global, low: u64, high: u64, item: Schema) -> Result<Schema, NoMemory>
    ensures { IfOk result (λ s. s ≡ spec.list_of low high item) }
{
    let mut words = Many::new(alloc);
    words.push(of_type(alloc, &[TypeName::List])?)?;
    words.push(SchemaWord::MinItems(low))?;
    words.push(SchemaWord::MaxItems(high))?;
    words.push(SchemaWord::Items(item))?;
    Ok(Schema { words })
}

/// A map that has a key.
#[tactic(auto, unfolding(crate::specs::Forms::has_key))]
pub fn has_key(alloc: Global, key: &str) -> Result<Schema, NoMemory>
    ensures { IfOk result (λ s. s ≡ spec.has_key key.now) }
{
    one_word(alloc, SchemaWord::Required(one_name(alloc, key)?))
}

fn two(alloc: Global, first: Schema, second: Schema) -> Result<Schemas, NoMemory>
    ensures { IfOk result (λ ss. ss ≡ first ∷ second ∷ []) }
{
    let mut schemas = Many::new(alloc);
    schemas.push(first)?;
    schemas.push(second)?;
    Ok(schemas)
}

/// Just one of two.
#[tactic(auto, unfolding(crate::specs::Forms::either))]
pub fn either(alloc: Global, first: Schema, second: Schema) -> Result<SchemaWord, NoMemory>
    ensures { IfOk result (λ w. w ≡ spec.either first second) }
{
    Ok(SchemaWord::OneOf(two(alloc, first, second)?))
}

/// One of two, or both.
pub fn any_of_two(alloc: Global, first: Schema, second: Schema) -> Result<Schema, NoMemory>
    ensures { IfOk result (λ s. s ≡ spec.schema (word.AnyOf (first ∷ second ∷ []) ∷ [])) }
{
    one_word(alloc, SchemaWord::AnyOf(two(alloc, first, second)?))
}
