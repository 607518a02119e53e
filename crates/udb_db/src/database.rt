//! Databases: tables that were accepted.

ghost use Rattle.std.specs.Prelude.{◌≡◌};

use crate::drafts::Draft;
use std::marker::Model;
use udb_tables::Tables;

/// Tables that break no rule, with what was read of them. Seen as the list of the rows, in order.
#[derive(Drop)]
pub struct Database {
    pub(crate) draft: Draft,
}

impl Model for Database {
    ghost use Rattle.std.specs.Prelude.{List};
    ghost use Rattle.udb_base.specs.declared.rows.Row.{Row};
    ghost use Rattle.db_spec.specs.First.{Sound};

    ghost Value = { List Row };

    ghost view = { λ d. d.draft };

    ghost invariant = { λ d. Sound d.draft };
}

impl Database {
    /// What was read of the tables.
    pub fn draft(&self) -> &Draft
        ensures { result.now ≡ self.now }
    {
        &self.draft
    }

    /// The same, where it no longer matters that all rules are kept.
    pub fn into_draft(self) -> Draft
        ensures { result ≡ self }
    {
        self.draft
    }

    /// The tables.
    pub fn tables(&self) -> &Tables
        ensures { result.now ≡ self.now }
    {
        self.draft.tables()
    }
}
