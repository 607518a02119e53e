//! The texts of versions and requirements.

ghost use Rattle.std.specs.Prelude.{◌≡◌, ◌∷◌, ◌≤◌, IsTrue, IfSome, IfOk, length, position};
ghost use Rattle.std.specs.Option.{option_copied};
ghost use Rattle.std.specs.Result.{result_ok};
ghost use Rattle.std.specs.Str.{all_ascii_digits};
ghost use Rattle.std.specs.Str.Parse.{digits_value};
ghost use Rattle.udb_base.specs.declared.versions.Requirement.{Requirement};
ghost use Rattle.udb_spec.specs.Grammar.{is_number, number_of, version_of_parts, version_of, operator, SpellsRequirement};
ghost use Rattle.udb_cond.specs.Requirements.{comparison_of, without_spaces, requirement_of};
ghost use Rattle.udb_cond.specs.Parts.{is_dot, parts_of, IsFirstPart};

use udb_base::{Compare, Requirement, Version};

/// A text that spells no version.
#[derive(Clone, Copy, Debug, PartialEq, Eq)]
pub struct BadVersion;

/// A text that spells no requirement.
#[derive(Clone, Copy, Debug, PartialEq, Eq)]
pub struct BadRequirement;

fn all_digits(text: &[u8]) -> bool
    ensures { result ≡ all_ascii_digits text.now }
{
    text.iter().all(|byte| byte.is_ascii_digit())
}

fn is_number(text: &[u8]) -> bool
    ensures { result ≡ is_number text.now }
{
    all_digits(text)
        && (!text.is_empty() && (text.len() <= 9 && (text.len() == 1 || text[0] != b'0')))
}

fn digits_value(text: &[u8]) -> u32
    requires { IsTrue (is_number text.now) }
    ensures { result ≡ digits_value 10 text.now }
{
    let mut value: u32 = 0;
    for digit in text {
        value = value * 10 + u32::from(*digit - b'0');
    }
    value
}

fn number(text: &[u8]) -> Option<u32>
    ensures { result ≡ number_of text.now }
{
    if is_number(text) {
        Some(digits_value(text))
    } else {
        None
    }
}

fn first_dot(text: &[u8]) -> Option<usize>
    ensures { result ≡ position is_dot text.now }
{
    text.iter().position(|byte| *byte == b'.')
}

// The part before the first dot, and what stands after the dot where there is one.
fn first_part(text: &[u8]) -> (&[u8], Option<&[u8]>)
    ensures { IsFirstPart text.now result.0.now (option_copied result.1) }
{
    match first_dot(text) {
        Some(at) => {
            let (part, rest) = text.split_at(at);
            (part, Some(rest.split_at(1).1))
        }
        None => (text, None),
    }
}

fn with_patch(major: u32, minor: u32, text: &[u8]) -> Option<Version>
    ensures { result ≡ version_of_parts (Some major ∷ Some minor ∷ parts_of text.now) }
{
    let (part, rest) = first_part(text);
    let patch = number(part)?;
    match rest {
        Some(_) => None,
        None => Some(Version {
            major,
            minor,
            patch,
        }),
    }
}

fn with_minor(major: u32, text: &[u8]) -> Option<Version>
    ensures { result ≡ version_of_parts (Some major ∷ parts_of text.now) }
{
    let (part, rest) = first_part(text);
    let minor = number(part)?;
    match rest {
        Some(rest) => with_patch(major, minor, rest),
        None => Some(Version {
            major,
            minor,
            patch: 0,
        }),
    }
}

#[tactic(auto, unfolding(udb_spec::specs::Grammar::version_of))]
fn version(text: &[u8]) -> Option<Version>
    ensures { result ≡ version_of text.now }
{
    let (part, rest) = first_part(text);
    let major = number(part)?;
    match rest {
        Some(rest) => with_minor(major, rest),
        None => Some(Version {
            major,
            minor: 0,
            patch: 0,
        }),
    }
}

/// The version that a text spells: one to three decimal numbers of one to nine digits, joined by
/// dots; missing parts are 0. A number has no zero before other digits. `BadVersion` is answered
/// exactly where the text is none. It takes no memory.
pub fn parse_version(text: &str) -> Result<Version, BadVersion>
    ensures { result_ok result ≡ version_of text.now }
{
    version(text.as_bytes()).ok_or(BadVersion)
}

fn comparison(text: &[u8]) -> Option<Compare>
    ensures value { result ≡ comparison_of text.now }
    ensures bound { IfSome result (λ c. length (operator c) ≤ length text.now) }
{
    if text.starts_with(b"!=") {
        Some(Compare::NotEqual)
    } else if text.starts_with(b">=") {
        Some(Compare::AtLeast)
    } else if text.starts_with(b"<=") {
        Some(Compare::AtMost)
    } else if text.starts_with(b"~>") {
        Some(Compare::Compatible)
    } else if text.starts_with(b"=") {
        Some(Compare::Equal)
    } else if text.starts_with(b">") {
        Some(Compare::Above)
    } else if text.starts_with(b"<") {
        Some(Compare::Below)
    } else {
        None
    }
}

fn operator_length(compare: Compare) -> usize
    ensures { result ≡ length (operator compare) }
{
    match compare {
        Compare::Equal | Compare::Above | Compare::Below => 1,
        Compare::NotEqual | Compare::AtLeast | Compare::AtMost | Compare::Compatible => 2,
    }
}

fn without_spaces(text: &[u8]) -> &[u8]
    ensures { result.now ≡ without_spaces text.now }
{
    for (at, byte) in text.iter().enumerate() {
        if *byte != b' ' {
            return text.split_at(at).1;
        }
    }
    text.split_at(text.len()).1
}

fn requirement(text: &[u8]) -> Option<Requirement>
    ensures { result ≡ requirement_of text.now }
{
    let Some(compare) = comparison(text) else {
        return Some(Requirement {
            compare: Compare::Equal,
            version: version(text)?,
        });
    };
    let after = text.split_at(operator_length(compare)).1;
    Some(Requirement {
        compare,
        version: version(without_spaces(after))?,
    })
}

/// The requirement that a text spells: one of `=`, `!=`, `>`, `>=`, `<`, `<=` and `~>`, any number
/// of spaces, and a version; or a version alone, which is then to be equal. `BadRequirement` is
/// answered exactly where the text is none. It takes no memory.
pub fn parse_requirement(text: &str) -> Result<Requirement, BadRequirement>
    ensures spelled { IfOk result (SpellsRequirement text.now) }
    ensures exact { (r : Requirement) → SpellsRequirement text.now r → result ≡ Ok r }
{
    requirement(text.as_bytes()).ok_or(BadRequirement)
}
