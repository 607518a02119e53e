//! CSRs of cases.

use crate::bodies::body_of;
use crate::conds::cond_of;
use crate::numbers::number_of;
use idl_tree::{
    BitPart, Body, CsrBodies, CsrBody, FieldBodies, FieldKind, FieldPlaces, FieldType, Fields,
    Length, ResetValue,
};
use std::alloc::Global;
use udb_base::{Cond, Many, Name, NoMemory, both};

// What stands behind a mark among the words of a field.
fn marked<'a>(words: &'a str, mark: char) -> Option<&'a str> {
    for word in words.split('/') {
        if let Some(rest) = word.strip_prefix(mark) {
            return Some(rest);
        }
    }
    None
}

fn place_number(text: &str) -> u16 {
    text.parse::<u16>().unwrap_or(0)
}

fn part_of(text: &str) -> BitPart {
    let (high, low) = text.split_once('-').unwrap_or((text, text));
    BitPart {
        high: place_number(high),
        low: place_number(low),
    }
}

fn place_of(text: &str) -> Option<BitPart> {
    if text == "none" {
        None
    } else {
        Some(part_of(text))
    }
}

fn places_of(text: &str) -> FieldPlaces {
    match text.split_once('|') {
        Some((rv32, rv64)) => FieldPlaces::ByBase {
            rv32: place_of(rv32),
            rv64: place_of(rv64),
        },
        None => FieldPlaces::All(part_of(text)),
    }
}

fn type_of(text: &str) -> FieldType {
    match text {
        "ROH" => FieldType::ROH,
        "RW" => FieldType::RW,
        "RWR" => FieldType::RWR,
        "RWH" => FieldType::RWH,
        "RWRH" => FieldType::RWRH,
        _ => FieldType::RO,
    }
}

// The source of a body with the name among lines of a name and a source.
fn source_named<'a>(sources: &'a str, name: &str) -> &'a str {
    for line in sources.split('\n') {
        if let Some((found, source)) = line.split_once(' ') {
            if found == name {
                return source;
            }
        }
    }
    ""
}

fn body_named(alloc: Global, sources: &str, name: &str) -> Result<Option<Body>, NoMemory> {
    body_of(alloc, source_named(sources, name))
}

fn computed_kind(body: Result<Option<Body>, NoMemory>) -> Result<FieldKind, NoMemory> {
    match body? {
        Some(body) => Ok(FieldKind::Computed(body)),
        None => Ok(FieldKind::Plain(FieldType::RO)),
    }
}

fn kind_of(alloc: Global, sources: &str, words: &str) -> Result<FieldKind, NoMemory> {
    let text = marked(words, 'k').unwrap_or("RO");
    match text.strip_prefix('@') {
        Some(name) => computed_kind(body_named(alloc, sources, name)),
        None => Ok(FieldKind::Plain(type_of(text))),
    }
}

fn computed_reset(body: Result<Option<Body>, NoMemory>) -> Result<ResetValue, NoMemory> {
    match body? {
        Some(body) => Ok(ResetValue::Computed(body)),
        None => Ok(ResetValue::Plain(0)),
    }
}

fn reset_of(alloc: Global, sources: &str, words: &str) -> Result<ResetValue, NoMemory> {
    let text = marked(words, 'r').unwrap_or("0");
    match text.strip_prefix('@') {
        Some(name) => computed_reset(body_named(alloc, sources, name)),
        None => Ok(ResetValue::Plain(number_of(text))),
    }
}

fn write_of(alloc: Global, sources: &str, words: &str) -> Result<Option<Body>, NoMemory> {
    match marked(words, 'w') {
        Some(name) => body_named(alloc, sources, name),
        None => Ok(None),
    }
}

// The bodies of a field: of its type, its value at reset and its writes.
fn field_bodies(
    alloc: Global,
    sources: &str,
    words: &str,
) -> Result<(FieldKind, (ResetValue, Option<Body>)), NoMemory> {
    let rest = both(
        reset_of(alloc, sources, words),
        write_of(alloc, sources, words),
    );
    both(kind_of(alloc, sources, words), rest)
}

fn field_head(alloc: Global, name: &str, words: &str) -> Result<(Name, Cond), NoMemory> {
    let present = cond_of(alloc, marked(words, 'p').unwrap_or("always"));
    both(Name::of(alloc, name), present)
}

fn field_of(alloc: Global, sources: &str, text: &str) -> Result<FieldBodies, NoMemory> {
    let (name, rest) = text.split_once('/').unwrap_or((text, ""));
    let (places, words) = rest.split_once('/').unwrap_or((rest, ""));
    let head = field_head(alloc, name, words);
    let ((name, present), (kind, (reset, write))) = both(
        head,
        field_bodies(alloc, sources, words),
    )?;
    Ok(FieldBodies {
        name,
        present,
        places: places_of(places),
        kind,
        reset,
        write,
    })
}

fn push_field(to: &mut Fields, one: Result<FieldBodies, NoMemory>) -> Result<(), NoMemory> {
    to.push(one?)?;
    Ok(())
}

fn fields_of(alloc: Global, sources: &str, text: &str) -> Result<Fields, NoMemory> {
    let mut fields = Many::new(alloc);
    for word in text.split(' ') {
        push_field(&mut fields, field_of(alloc, sources, word))?;
    }
    Ok(fields)
}

fn length_of(text: &str) -> Length {
    match text {
        "32" => Length::Bits32,
        "64" => Length::Bits64,
        _ => Length::Mxlen,
    }
}

fn csr_of(alloc: Global, sources: &str, line: &str) -> Result<CsrBody, NoMemory> {
    let (head, fields) = line.split_once(": ").unwrap_or((line, ""));
    let (name, rest) = head.split_once(' ').unwrap_or((head, ""));
    let (address, rest) = rest.split_once(' ').unwrap_or((rest, ""));
    let (length, present) = rest.split_once(' ').unwrap_or((rest, "always"));
    let parts = both(cond_of(alloc, present), fields_of(alloc, sources, fields));
    let (name, (present, fields)) = both(Name::of(alloc, name), parts)?;
    Ok(CsrBody {
        name,
        present,
        address: (number_of(address) % 4096) as u16,
        length: length_of(length),
        fields,
    })
}

fn push_csr(to: &mut CsrBodies, one: Result<CsrBody, NoMemory>) -> Result<(), NoMemory> {
    to.push(one?)?;
    Ok(())
}

/// The CSRs of some lines, in their order: `NAME ADDRESS LENGTH PRESENT: FIELD FIELD ..`. A length is 32, 64 or
/// `mxlen`. A field is `NAME/PLACES` and words behind further `/`: `k` with its type, `r` with its value at
/// reset, `w` with the name of the body of its writes, `p` with its condition; behind `k` and `r` may stand
/// `@` and the name of a body. Places are `HIGH-LOW` or one bit, or two of these for 32 and for 64 joined by `|`,
/// where `none` is no place. The bodies stand in `sources`, a name and a source in each line.
pub fn csrs_of(alloc: Global, lines: &str, sources: &str) -> Result<CsrBodies, NoMemory> {
    let mut csrs = Many::new(alloc);
    for line in lines.split('\n') {
        if !line.is_empty() {
            push_csr(&mut csrs, csr_of(alloc, sources, line))?;
        }
    }
    Ok(csrs)
}

/// The CSRs of machine mode that ship with the database. (RISC-V privileged manual, "Machine-Level
/// CSRs".)
const SHIPPED: &str = "marchid 0xF12 mxlen Sm: VALUE/31-0|63-0
mcause 0x342 mxlen Sm: CODE/30-0|62-0/kRWH INT/31|63/kRWH
mepc 0x341 mxlen Sm: PC/31-2|63-2/kRWH
mhartid 0xF14 mxlen Sm: VALUE/31-0|63-0
mimpid 0xF13 mxlen Sm: VALUE/31-0|63-0
misa 0x301 mxlen Sm: EXTENSIONS/25-0/r@extensions MXL/31-30|63-62/r@width
mscratch 0x340 mxlen Sm: SCRATCH/31-0|63-0/kRW
mstatus 0x300 mxlen Sm: MIE/3/kRWH MPIE/7/kRWH MPP/12-11/r3
mtval 0x343 mxlen Sm: VALUE/31-0|63-0/kRWH
mtvec 0x305 mxlen Sm: BASE/31-2|63-2/kRW MODE/1-0
mvendorid 0xF11 32 Sm: VALUE/31-0
";

const SHIPPED_SOURCES: &str =
    "extensions return implemented?(ExtensionName::M) ? 26'h1100 : 26'h100;
width return (MXLEN == 32) ? 2'd1 : 2'd2;
";

/// The CSRs of machine mode that ship with the database, as Sm has them.
pub fn shipped_csrs(alloc: Global) -> Result<CsrBodies, NoMemory> {
    csrs_of(alloc, SHIPPED, SHIPPED_SOURCES)
}
