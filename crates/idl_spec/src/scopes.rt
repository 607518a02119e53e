//! Which body of a program or an entry a body is.

/// An operation, or by its places in the program a function's body or one of a field's bodies.
#[derive(Clone, Copy)]
pub enum BodyScope {
    Operation,
    Function { place: u32 },
    FieldType { csr: u32, field: u32 },
    FieldReset { csr: u32, field: u32 },
    FieldWrite { csr: u32, field: u32 },
}
