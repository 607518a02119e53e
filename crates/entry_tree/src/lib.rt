//! The read entries of the database: what the text of a row gives once its rules are kept.
//!
//! Lists keep the order of the text. A missing condition is `Always`, a missing list is empty, a
//! missing `left_shift` is 0.
#![tactic(auto)]

use idl_tree::{Base, Body, FieldBodies, Functions, Length};
use udb_base::{Chars, Cond, Domain, ListedVersions, Many, Name, Requirements, Value};

/// An extension: its versions rise, and `needs` has to hold where it is present.
#[derive(Drop)]
pub struct ExtensionEntry {
    pub name: Name,
    pub long_name: Chars,
    pub description: Chars,
    pub versions: ListedVersions,
    pub needs: Cond,
}

/// A parameter: it is defined where `defined` holds, and then `needs` has to hold.
#[derive(Drop)]
pub struct ParamEntry {
    pub name: Name,
    pub long_name: Chars,
    pub description: Chars,
    pub domain: Domain,
    pub defined: Cond,
    pub needs: Cond,
}

/// The encoding of an instruction for all widths of the registers, or for one. `digits` has 32 of
/// `0`, `1` and `-`, bit 31 first.
#[derive(Drop)]
pub struct Encoding {
    pub base: Base,
    pub digits: Chars,
}

/// Encodings, in the order of the entry.
pub type Encodings = Many<Encoding>;

/// An instruction. `base` is 32 or 64 where it is there for one width of the registers alone.
#[derive(Drop)]
pub struct InstructionEntry {
    pub name: Name,
    pub long_name: Chars,
    pub description: Chars,
    pub assembly: Chars,
    pub base: Option<u8>,
    pub encodings: Encodings,
    pub defined: Cond,
    pub operation: Body,
}

/// A field of a CSR, with its texts.
#[derive(Drop)]
pub struct FieldEntry {
    pub bodies: FieldBodies,
    pub long_name: Option<Chars>,
    pub description: Option<Chars>,
}

/// Fields, in the order of the entry.
pub type FieldEntries = Many<FieldEntry>;

/// A control and status register.
#[derive(Drop)]
pub struct CsrEntry {
    pub name: Name,
    pub long_name: Chars,
    pub description: Chars,
    pub address: u16,
    pub length: Length,
    pub defined: Cond,
    pub fields: FieldEntries,
}

/// Functions that bodies may call.
#[derive(Drop)]
pub struct FunctionsEntry {
    pub name: Name,
    pub long_name: Chars,
    pub description: Chars,
    pub functions: Functions,
}

/// How much a configuration settles.
#[derive(Clone, Copy, Debug, PartialEq, Eq)]
pub enum ConfigKind {
    Unconfigured,
    Partially,
    Fully,
}

/// An extension that a configuration names, and the requirements on its version.
#[derive(Drop)]
pub struct Member {
    pub name: Name,
    pub needs: Requirements,
}

/// Extensions that a configuration names, in the order of the entry.
pub type Members = Many<Member>;

/// A parameter with the value that a configuration gives it.
#[derive(Drop)]
pub struct Given {
    pub name: Name,
    pub value: Value,
}

/// Given values, in the order of the entry.
pub type Givens = Many<Given>;

/// A configuration. `additional` says whether extensions that it doesn't name may be present.
#[derive(Drop)]
pub struct ConfigEntry {
    pub name: Name,
    pub description: Chars,
    pub kind: ConfigKind,
    pub params: Givens,
    pub mandatory: Members,
    pub prohibited: Members,
    pub additional: bool,
    pub implemented: Members,
}
