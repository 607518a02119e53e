//! The paths of the service.

ghost use Rattle.std.specs.Prelude.{◌≡◌};
ghost use Rattle.udb_http.specs.Table.{table_rows};

use matchit::Router;
use udb_base::{Chars, Kind, Name};

/// A path of the service, with the values of its parameters.
#[derive(Drop)]
pub enum Route {
    Entries,
    Entry {
        kind: Kind,
        name: Name,
    },
    Manual {
        config: Name,
    },
    Decode {
        config: Name,
        word: Chars,
    },
    Run {
        config: Name,
        steps: Chars,
    },
    Proof {
        config: Name,
        kind: Kind,
        name: Name,
    },
}

/// A row of the table of routes.
#[derive(Clone, Copy, PartialEq, Eq)]
pub enum Place {
    Entries,
    Entry,
    Manual,
    Decode,
    Run,
    Proof,
}

/// The table of routes.
#[derive(Drop)]
pub struct Routes {
    pub(crate) router: Router<Place>,
    ghost whole: { router ≡ table_rows },
}
