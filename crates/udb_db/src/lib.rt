//! Tables that keep the rules of acceptance, as a database, or the first rule that they break.
#![tactic(auto)]

mod accepting;
mod completing;
mod configs;
mod database;
mod drafts;
mod examining;
mod names;
mod reading;
mod searching;
mod spaces;

pub use accepting::{AcceptFault, accept, open};
pub use database::Database;
pub use db_spec::Broken;
pub use drafts::Draft;
pub use searching::search;
pub use udb_tables::Tables;
