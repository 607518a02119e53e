//! Reads cases, one a line, and prints each with what the reader of bundles says of it: `ok` or
//! `no bundle`. A case is pieces of the text below, each with what replaces it wherever it stands,
//! all with ` :: ` between them; `\` alone is nothing, and a number between two `@` is so many
//! letters A.
#![tactic(auto)]

use case_text::text_of;
use first_bundle::read_first;
use std::alloc::{AllocError, Global};
use std::io;

const BUNDLE: &str =
    "=== parameter Fast 6\nkind: parameter\nname: Fast\nlong_name: Speed\ndescription: Quick or not\nschema:\n  type: boolean\n=== parameter MXLEN 7\nkind: parameter\nname: MXLEN\nlong_name: Width\ndescription: Always 32\nschema:\n  type: integer\n  enum: [32]\n=== parameter Safe 6\nkind: parameter\nname: Safe\nlong_name: Guard\ndescription: Checked or not\nschema:\n  type: boolean\n=== instruction step 9\nkind: instruction\nname: step\nlong_name: Test\ndescription: One body\nassembly: \"\"\nencoding:\n  match: -------------------------1111011\noperation(): |\n  X[2] = X[1] + 32'd2;\n=== config board 4\nkind: architecture configuration\nname: board\ntype: unconfigured\ndescription: Nothing given\n";

// What a field stands for.
fn text_of_field(alloc: Global, field: &str) -> Result<String, AllocError> {
    let mut text = String::new(alloc);
    for (place, part) in field.split('@').enumerate() {
        match part.parse::<usize>() {
            Ok(count) if place == 1 => text.push_str("A".repeat(alloc, count)?.as_str())?,
            _ => text.push_str(text_of(alloc, part)?.as_str())?,
        }
    }
    Ok(text)
}

// The text of a case, where its pieces stand in it.
fn bundle_of(alloc: Global, line: &str) -> Result<Option<String>, AllocError> {
    let mut text = String::from_str(alloc, BUNDLE)?;
    let mut piece = None;
    for field in line.split(" :: ") {
        let field = text_of_field(alloc, field)?;
        match piece {
            None => piece = Some(field),
            Some(old) => {
                if !text.contains(old.as_str()) {
                    return Ok(None);
                }
                text = text.replace(alloc, old.as_str(), field.as_str())?;
                piece = None;
            }
        }
    }
    Ok(Some(text))
}

fn answer(alloc: Global, bytes: &[u8]) -> Result<&'static str, AllocError> {
    if read_first(alloc, bytes)?.is_some() {
        Ok("ok")
    } else {
        Ok("no bundle")
    }
}

fn main(rt: HostRuntime) -> io::Result<()> {
    let no_text = answer(rt.alloc(), b"\xff\x00\n")?;
    println!(rt; "bytes that are no text\n    {no_text}")?;
    for line in rt.lines(rt.alloc()) {
        let line = line?;
        let told = match bundle_of(rt.alloc(), line.as_str())? {
            Some(text) => answer(rt.alloc(), text.as_bytes())?,
            None => "no such piece",
        };
        println!(rt; "{line}\n    {told}")?;
    }
    Ok(())
}
