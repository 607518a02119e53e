//! The choices and values that lines are.

ghost use Rattle.std.specs.Prelude.{IfOk};
ghost use Rattle.std.specs.Option.{option_copied};
ghost use Rattle.udb_full.specs.Found.{IsNamed, IsChoiceFound, IsValueFound};

use crate::values::{value_of_text, version_of_text};
use std::alloc::Global;
use udb_base::{ExtSpace, NoMemory, ParamSpace, Value, Version, strip_prefix};

// What follows a name and a space.
fn after_name<'a>(line: &'a [u8], name: &[u8]) -> Option<&'a [u8]>
    ensures { IsNamed name.now line.now (option_copied result) }
{
    match strip_prefix(line, name) {
        Some(rest) => strip_prefix(rest, b" "),
        None => None,
    }
}

/// The choice of an extension that a line is.
pub(crate) fn choice_of_line(
    alloc: Global,
    ext: &ExtSpace,
    line: &[u8],
) -> Result<Option<Option<Version>>, NoMemory>
    ensures { IfOk result (IsChoiceFound ext.now line.now) }
{
    let Some(text) = after_name(line, ext.name.as_str().as_bytes()) else {
        return Ok(None);
    };
    if text == b"absent".as_slice() {
        return Ok(Some(None));
    }
    match version_of_text(alloc, ext.versions.as_slice(), text)? {
        Some(version) => Ok(Some(Some(version))),
        None => Ok(None),
    }
}

/// The value of a parameter that a line is.
pub(crate) fn value_of_line(
    alloc: Global,
    param: &ParamSpace,
    line: &[u8],
) -> Result<Option<Value>, NoMemory>
    ensures { IfOk result (IsValueFound param.now line.now) }
{
    match after_name(line, param.name.as_str().as_bytes()) {
        Some(text) => value_of_text(alloc, &param.domain, text),
        None => Ok(None),
    }
}
