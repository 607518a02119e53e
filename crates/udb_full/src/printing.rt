//! The lines of full configurations.

ghost use Rattle.std.specs.Prelude.{◌≡◌, ◌++◌, ◌∷◌, ◌<◌, [], IfOk, OnOk, encode_utf8};
ghost use Rattle.std.specs.List.{flat_map};
ghost use Rattle.udb_spec.specs.Constraints.{IsInDomains};
ghost use Rattle.udb_spec.specs.ProofText.{SpellsFull, plain_or_hex, hex_digit, json_byte, json_text, version_text, choice_text, value_text, choice_lines, value_lines, full_lines};
ghost use Rattle.udb_full.specs.Found.{IsShortVersion};

use std::alloc::Global;
use udb_base::{
    Chars, ExtSpace, Full, Lines, Many, Name, NoMemory, ParamSpace, Space, Value, Version,
};

pub(crate) fn text_of_version(alloc: Global, version: Version) -> Result<Chars, NoMemory>
    ensures text { IfOk result (λ text. text ≡ version_text version) }
    ensures short { IsShortVersion version }
{
    let Version {
        major,
        minor,
        patch,
    } = version;
    Ok(Chars::from_string(format!(in alloc; "{major}.{minor}.{patch}")?))
}

fn text_of_choice(alloc: Global, choice: Option<Version>) -> Result<Chars, NoMemory>
    ensures { IfOk result (λ text. text ≡ choice_text choice) }
{
    match choice {
        None => Chars::of(alloc, "absent"),
        Some(version) => text_of_version(alloc, version),
    }
}

fn hex_digit(digit: u8) -> char
    requires { digit < 16 }
    ensures sign { result ≡ hex_digit digit }
    ensures small { result < 128 }
{
    if digit < 10 {
        (b'0' + digit) as char
    } else {
        (b'W' + digit) as char
    }
}

// The code of a control character.
fn push_code(text: &mut Chars, byte: u8) -> Result<(), NoMemory>
    requires { byte < 32 }
    ensures { OnOk result (text.new ≡ text.old ++ plain_or_hex byte) }
{
    text.push_str("\\u00")?;
    text.push(hex_digit(byte / 16))?;
    text.push(hex_digit(byte % 16))
}

// A control character as a JSON text writes it.
fn push_control(text: &mut Chars, byte: u8) -> Result<(), NoMemory>
    requires { byte < 32 }
    ensures { OnOk result (text.new ≡ text.old ++ json_byte byte) }
{
    match byte {
        8 => text.push_str("\\b"),
        9 => text.push_str("\\t"),
        10 => text.push_str("\\n"),
        12 => text.push_str("\\f"),
        13 => text.push_str("\\r"),
        _ => push_code(text, byte),
    }
}

// A character as a JSON text writes it.
#[tactic(auto, using(crate::proofs::JsonLemmas::control_letter, crate::proofs::JsonLemmas::other_letter))]
fn push_json_letter(text: &mut Chars, letter: char) -> Result<(), NoMemory>
    ensures { OnOk result (text.new ≡ text.old ++ flat_map json_byte (encode_utf8 letter)) }
{
    if letter == '"' {
        return text.push_str("\\\"");
    }
    if letter == '\\' {
        return text.push_str("\\\\");
    }
    if letter < ' ' {
        return push_control(text, letter as u8);
    }
    text.push(letter)
}

/// A word as a JSON text.
pub(crate) fn json_text(alloc: Global, word: &str) -> Result<Chars, NoMemory>
    ensures { IfOk result (λ text. text ≡ json_text word.now) }
{
    let mut text = Chars::of(alloc, "\"")?;
    for letter in word.chars() {
        push_json_letter(&mut text, letter)?;
    }
    text.push_str("\"")?;
    Ok(text)
}

/// A value as completions and tables write it: a truth value, a decimal number, or a JSON text with
/// the escapes of RFC 8259, section 7. The one refusal is want of memory.
pub fn text_of_value(alloc: Global, value: &Value) -> Result<Chars, NoMemory>
    ensures { IfOk result (λ text. text ≡ value_text value.now) }
{
    match value {
        Value::Flag(flag) => {
            if *flag {
                Chars::of(alloc, "true")
            } else {
                Chars::of(alloc, "false")
            }
        }
        Value::Number(number) => Ok(Chars::from_string(format!(in alloc; "{number}")?)),
        Value::Word(word) => json_text(alloc, word.as_str()),
    }
}

// A name, a space and a text.
fn line_with_name(alloc: Global, name: &Name, text: &Chars) -> Result<Chars, NoMemory>
    ensures { IfOk result (λ line. line ≡ name.now ++ (32 ∷ text.now)) }
{
    let mut line = Chars::of(alloc, name.as_str())?;
    line.push_str(" ")?;
    line.push_str(text.as_str())?;
    Ok(line)
}

fn line_of_choice(alloc: Global, ext: &ExtSpace, choice: Option<Version>) -> Result<Chars, NoMemory>
    ensures { IfOk result (λ line. line ≡ ext.now.name ++ (32 ∷ choice_text choice)) }
{
    let text = text_of_choice(alloc, choice)?;
    line_with_name(alloc, &ext.name, &text)
}

fn line_of_value(alloc: Global, param: &ParamSpace, value: &Value) -> Result<Chars, NoMemory>
    ensures { IfOk result (λ line. line ≡ param.now.name ++ (32 ∷ value_text value.now)) }
{
    let text = text_of_value(alloc, value)?;
    line_with_name(alloc, &param.name, &text)
}

fn push_choices(
    alloc: Global,
    out: &mut Lines,
    exts: &[ExtSpace],
    choices: &[Option<Version>],
) -> Result<(), NoMemory>
    ensures { OnOk result (out.new ≡ out.old ++ choice_lines exts.now choices.now) }
{
    for at in 0..exts.len().min(choices.len()) {
        out.push(line_of_choice(alloc, &exts[at], choices[at])?)?;
    }
    Ok(())
}

fn push_values(
    alloc: Global,
    out: &mut Lines,
    params: &[ParamSpace],
    values: &[Value],
) -> Result<(), NoMemory>
    ensures { OnOk result (out.new ≡ out.old ++ value_lines params.now values.now) }
{
    for at in 0..params.len().min(values.len()) {
        out.push(line_of_value(alloc, &params[at], &values[at])?)?;
    }
    Ok(())
}

/// The lines of a full configuration: a line for each extension of the space, then for each
/// parameter, in the order of the space. The one refusal is want of memory.
pub fn print_full(alloc: Global, space: &Space, full: &Full) -> Result<Lines, NoMemory>
    ensures text { IfOk result (λ lines. lines ≡ full_lines space.now full.now) }
    ensures spelled { IsInDomains space.now full.now
        → IfOk result (λ lines. SpellsFull space.now lines full.now) }
{
    let mut lines = Many::new(alloc);
    push_choices(
        alloc,
        &mut lines,
        space.extensions.as_slice(),
        full.extensions.as_slice(),
    )?;
    push_values(
        alloc,
        &mut lines,
        space.params.as_slice(),
        full.params.as_slice(),
    )?;
    Ok(lines)
}
