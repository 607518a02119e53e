//! Whether the numbers of a space's parameters have the bits that readers give them.

ghost use Rattle.std.specs.Prelude.{◌≡◌, ◌↔◌, IsTrue};
ghost use Rattle.std.specs.List.{list_all};
ghost use Rattle.type_laws.specs.Given.{IsReadSpace};
ghost use Rattle.idl_lawful.specs.Readings.{is_read_domain, has_read_domain};

use crate::states::{has_bits, have_bits};
use udb_base::{Domain, ParamSpace, Space};

fn is_read_domain(domain: &Domain) -> bool
    ensures { result ≡ is_read_domain domain.now }
{
    match domain {
        Domain::Flags => true,
        Domain::Numbers(numbers) => have_bits(numbers.as_slice(), 64),
        Domain::Range { low, high } => has_bits(*low, 64) && has_bits(*high, 64),
        Domain::Words(_) => true,
    }
}

fn have_read_domains(params: &[ParamSpace]) -> bool
    ensures { result ≡ list_all has_read_domain params.now }
{
    for param in params {
        if !is_read_domain(&param.domain) {
            return false;
        }
    }
    true
}

/// Whether the numbers that domains list, and the ends of their ranges, have at most 64 bits, which
/// the types of a space in memory leave no way to break. It takes no memory.
pub fn is_read_space(space: &Space) -> bool
    ensures { IsTrue result ↔ IsReadSpace space.now }
{
    have_read_domains(space.params.as_slice())
}
