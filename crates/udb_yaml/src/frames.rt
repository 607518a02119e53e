//! Open lists and maps.

use crate::indexed::IndexedPairs;
use std::marker::Model;
use udb_base::Chars;
use yaml_spec::Group;

/// An open list or map: a `Frame` whose parts have a set of their keys.
#[derive(Drop)]
pub struct OpenFrame {
    pub group: Group,
    pub column: usize,
    pub parts: IndexedPairs,
    pub key: Chars,
}

impl Model for OpenFrame {
    ghost use Rattle.yaml_spec.specs.declared.state.Frame.{Frame};
    ghost use Rattle.yaml_spec.specs.contracts.state.Frame as frame;

    ghost Value = { Frame };

    ghost coded = { frame.the_row.coded };

    ghost view = { λ x. record { group = x.group; column = x.column; parts = x.parts; key = x.key } };
}
