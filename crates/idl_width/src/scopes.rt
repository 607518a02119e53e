//! What `$bits` can name.

ghost use Rattle.std.specs.Prelude.{◌≡◌};
ghost use Rattle.idl_width.specs.Numbers.{same_csr, is_named, bits_for, bits_among};

use udb_base::{Many, Name};

/// How many bits a variable of an encoding has, its left shift included, or where `csr` stands a
/// field of that CSR: where the registers have 32 bits and where they have 64, and 0 where it has no
/// place.
#[derive(Drop)]
pub struct BitsOf {
    pub csr: Option<Name>,
    pub name: Name,
    pub rv32: u8,
    pub rv64: u8,
}

/// The variables and fields that stand round a width. Of two with one name the first counts.
pub type BitsScope = Many<BitsOf>;

fn same_csr(one: &Option<Name>, other: &Option<Name>) -> bool
    ensures { result ≡ same_csr one.now other.now }
{
    match one {
        None => match other {
            None => true,
            Some(_) => false,
        },
        Some(one) => match other {
            None => false,
            Some(other) => one == other,
        },
    }
}

fn is_named(one: &BitsOf, csr: &Option<Name>, name: &Name) -> bool
    ensures { result ≡ is_named one.now csr.now name.now }
{
    same_csr(&one.csr, csr) && one.name == *name
}

fn bits_for(registers: u64, one: &BitsOf) -> u8
    ensures { result ≡ bits_for registers one.now }
{
    if registers == 64 { one.rv64 } else { one.rv32 }
}

/// The bits of a variable, or of a field where a CSR stands, for registers of that many bits: 0
/// where nothing has that name.
pub fn bits_among(registers: u64, scope: &[BitsOf], csr: &Option<Name>, name: &Name) -> u8
    ensures { result ≡ bits_among registers scope.now csr.now name.now }
{
    for one in scope {
        if is_named(one, csr, name) {
            return bits_for(registers, one);
        }
    }
    0
}
