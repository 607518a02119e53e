//! Parts with a sorted set of their keys.

ghost use Rattle.std.specs.Prelude.{◌≡◌, ◌++◌, ◌∷◌, [], IfOk};
ghost use Rattle.yaml_spec.specs.Line as line;

use std::alloc::Global;
use std::collections::BTreeSet;
use std::marker::Model;
use udb_base::{Chars, NoMemory};
use yaml_spec::{Pair, Pairs};

/// The parts of an open list or map. Whether one of them has a key is found in a sorted set, in a
/// time that grows with the logarithm of their number.
#[derive(Drop)]
pub struct IndexedPairs {
    pairs: Pairs,
    keys: BTreeSet<String>,
}

impl Model for IndexedPairs {
    ghost use Rattle.std.specs.Prelude.{List};
    ghost use Rattle.yaml_spec.specs.declared.tree.Pair.{Pair};
    ghost use Rattle.yaml_spec.specs.contracts.tree.Pair as pair;
    ghost use Rattle.std.specs.Coded.{coded_list};

    ghost Value = { List Pair };

    ghost coded = { coded_list pair.the_row.coded };

    ghost use Rattle.udb_yaml.specs.Keys.{HasKeysOf};

    ghost view = { λ x. x.pairs };

    ghost invariant = { λ x. HasKeysOf x.pairs x.keys };
}

impl IndexedPairs {
    /// No parts.
    pub fn new(alloc: Global) -> IndexedPairs
        ensures { result ≡ [] }
    {
        IndexedPairs {
            pairs: Pairs::new(alloc),
            keys: BTreeSet::new(alloc),
        }
    }

    /// Whether a part has this key.
    pub fn has(&self, key: &Chars) -> bool
        ensures { result ≡ line.has_key key.now self.now }
    {
        self.keys.contains(key.as_str())
    }

    /// These parts and one more.
    pub fn with(self, alloc: Global, part: Pair) -> Result<IndexedPairs, NoMemory>
        ensures { IfOk result (λ x. x ≡ self ++ part ∷ []) }
    {
        let IndexedPairs { pairs, keys } = self;
        let mut pairs = pairs;
        let mut keys = keys;
        keys.insert(String::from_str(alloc, part.key.as_str())?)?;
        pairs.push(part)?;
        Ok(IndexedPairs { pairs, keys })
    }

    /// The parts alone.
    pub fn into_pairs(self) -> Pairs
        ensures { result ≡ self }
    {
        let IndexedPairs { pairs, keys: _ } = self;
        pairs
    }
}
