//! Definitions of what bodies in the ISA Description Language mean, of what typing asks of them,
//! of the contexts of their places and of what pruning settles, which contracts of many crates
//! cite. The files stand in `specs/`; there is no code.
#![tactic(auto)]

mod scopes;

pub use scopes::BodyScope;
