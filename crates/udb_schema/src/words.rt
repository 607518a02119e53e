//! Schemas as values.

use udb_base::{Chars, Many};
use yaml_spec::{Tree, Trees};

/// A schema: words that a tree has to meet, each of them. The empty list is met by every tree.
#[derive(Drop)]
#[cycle(schemas)]
pub struct Schema {
    /// The words. Their order says nothing: a node's faults are named in the order of `Word`.
    pub words: SchemaWords,
}

/// A word of a schema with its operand, as JSON Schema (2020-12, "A Vocabulary for Structural
/// Validation" and "Applicator") has it. A word about another type than the node's is met.
#[derive(Drop)]
#[cycle(schemas)]
pub enum SchemaWord {
    /// The node is of one of these types.
    Type(TypeNames),
    /// The node equals one of these trees.
    Enum(Trees),
    /// The node equals this tree.
    Const(Tree),
    /// A number is at least this one.
    Minimum(i128),
    /// A number is at most this one.
    Maximum(i128),
    /// A text has at least so many characters.
    MinLength(u64),
    /// A list has at least so many items.
    MinItems(u64),
    /// A list has at most so many items.
    MaxItems(u64),
    /// Where true, no two items of a list are equal.
    UniqueItems(bool),
    /// A map has at least so many entries.
    MinProperties(u64),
    /// A map has at most so many entries.
    MaxProperties(u64),
    /// A map has each of these keys.
    Required(Names),
    /// What holds of a map's entries whose keys no `Properties` of the same schema names.
    AdditionalProperties(Additional),
    /// A map's values under these keys meet these schemas.
    Properties(SchemaProperties),
    /// Each item of a list meets this schema.
    Items(Schema),
    /// The node meets each of these schemas.
    AllOf(Schemas),
    /// The node meets at least one of these schemas.
    AnyOf(Schemas),
    /// The node meets exactly one of these schemas.
    OneOf(Schemas),
    /// The node doesn't meet this schema.
    Not(Schema),
}

/// What holds of the entries of a map that are named nowhere.
#[derive(Drop)]
#[cycle(schemas)]
pub enum Additional {
    /// There are none: `false`.
    Closed,
    /// Their values meet a schema.
    Meets(Schema),
}

/// A key of a map, and the schema of its value.
#[derive(Drop)]
#[cycle(schemas)]
pub struct SchemaProperty {
    pub key: Chars,
    pub schema: Schema,
}

/// The words of a schema.
pub type SchemaWords = Many<SchemaWord>;

/// Schemas side by side.
pub type Schemas = Many<Schema>;

/// The schemas of a map's values by their keys.
pub type SchemaProperties = Many<SchemaProperty>;

/// Types side by side.
pub type TypeNames = Many<TypeName>;

/// Keys of a map.
pub type Names = Many<Chars>;

/// The types of JSON Schema. Trees have no fractions, so each number is an integer.
#[derive(Clone, Copy, PartialEq, Eq)]
pub enum TypeName {
    Null,
    Boolean,
    Integer,
    Number,
    Text,
    List,
    Map,
}

/// The words, in the order in which a node is examined.
#[derive(Clone, Copy, PartialEq, Eq)]
pub enum Word {
    Type,
    Enum,
    Const,
    Minimum,
    Maximum,
    MinLength,
    MinItems,
    MaxItems,
    UniqueItems,
    MinProperties,
    MaxProperties,
    Required,
    AdditionalProperties,
    Properties,
    Items,
    AllOf,
    AnyOf,
    OneOf,
    Not,
}
