//! The kinds of entries.

/// What an entry describes. Tables are ordered by kind first, in the order of this list.
#[derive(Clone, Copy, Debug, PartialEq, Eq, PartialOrd, Ord)]
pub enum Kind {
    Extension,
    Parameter,
    Instruction,
    Csr,
    Functions,
    Config,
}

ghost use Rattle.std.specs.Prelude.{◌≡◌};
ghost use Rattle.udb_base.specs.Kinds.{kind_word};

/// The word by which bundles, commands and routes name a kind.
pub fn kind_word(kind: Kind) -> &'static str
    ensures { result.now ≡ kind_word kind }
{
    match kind {
        Kind::Extension => "extension",
        Kind::Parameter => "parameter",
        Kind::Instruction => "instruction",
        Kind::Csr => "csr",
        Kind::Functions => "functions",
        Kind::Config => "config",
    }
}
