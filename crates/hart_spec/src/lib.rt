//! Definitions of when entries are present, which instructions a word can be, and what one step of
//! a hart does. The files stand in `specs/`; there is no code.
#![tactic(auto)]
