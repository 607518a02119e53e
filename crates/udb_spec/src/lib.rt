//! Definitions of versions, conditions, spaces and completions, which contracts of many crates cite.
//! The files stand in `specs/`; there is no code.
#![tactic(auto)]
