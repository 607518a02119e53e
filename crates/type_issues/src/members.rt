//! The members of the enumerations.

ghost use Rattle.std.specs.Prelude.{◌≡◌, is_some};
ghost use Rattle.idl_tree.specs.declared.widths.EnumKind.TheVariants.{PrivilegeMode, ExceptionCode, CsrFieldType};
ghost use Rattle.idl_spec.specs.Values.{member_number};

use idl_tree::EnumKind;
use udb_base::Name;

#[tactic(auto, unfolding(idl_spec::specs::Values::member_number))]
fn is_mode(name: &str) -> bool
    ensures { result ≡ is_some (member_number PrivilegeMode name.now) }
{
    match name {
        "M" => true,
        _ => false,
    }
}

#[tactic(auto, unfolding(idl_spec::specs::Values::member_number))]
fn is_exception(name: &str) -> bool
    ensures { result ≡ is_some (member_number ExceptionCode name.now) }
{
    match name {
        "InstructionAddressMisaligned" | "InstructionAccessFault" => true,
        "IllegalInstruction" | "Breakpoint" | "Mcall" => true,
        "LoadAddressMisaligned" | "LoadAccessFault" => true,
        "StoreAmoAddressMisaligned" | "StoreAmoAccessFault" => true,
        _ => false,
    }
}

#[tactic(auto, unfolding(idl_spec::specs::Values::member_number))]
fn is_field_type(name: &str) -> bool
    ensures { result ≡ is_some (member_number CsrFieldType name.now) }
{
    match name {
        "RO" | "ROH" | "RW" | "RWR" | "RWH" | "RWRH" => true,
        _ => false,
    }
}

/// Whether an enumeration has a member of a name.
pub fn is_member(kind: EnumKind, name: &Name) -> bool
    ensures { result ≡ is_some (member_number kind name.now) }
{
    match kind {
        EnumKind::PrivilegeMode => is_mode(name.as_str()),
        EnumKind::ExceptionCode => is_exception(name.as_str()),
        EnumKind::CsrFieldType => is_field_type(name.as_str()),
    }
}
