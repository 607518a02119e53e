//! JSON Schema on trees without fractions: schemas, read from JSON or made as values, and the first
//! place at which a tree doesn't meet one.
#![tactic(auto)]

mod equality;
mod meeting;
mod reading;
mod validating;
mod words;

pub use reading::SchemaTextFault;
pub use validating::SchemaFault;
pub use words::{
    Additional, Names, Schema, SchemaProperties, SchemaProperty, SchemaWord, SchemaWords, Schemas,
    TypeName, TypeNames, Word,
};
