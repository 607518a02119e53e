//! The lines of a proof, printed.

ghost use Rattle.std.specs.Prelude.{◌≡◌, ◌++◌, ◌∷◌, [], true, IsTrue, IfOk, OnOk};
ghost use Rattle.std.specs.List.{flat_map, list_all};
ghost use Rattle.std.specs.Fmt.{decimal};
ghost use Rattle.udb_spec.specs.ProofText.{name_at, kind_text, leaf_text, split_text, cut_text, proof_lines, is_named, is_sized, SpellsProof};

use std::alloc::Global;
use udb_base::{Chars, Lines, Many, NoMemory};
use udb_cond::{Proof, Space};

/// The name of the parameter, or else the extension, at a place; empty where there is none.
pub(crate) fn name_at(space: &Space, param: bool, place: usize) -> &str
    ensures { result.now ≡ name_at space.now param place }
{
    if param {
        match space.params.get(place) {
            Some(param) => param.name.as_str(),
            None => "",
        }
    } else {
        match space.extensions.get(place) {
            Some(ext) => ext.name.as_str(),
            None => "",
        }
    }
}

fn leaf_line(alloc: Global, number: u32) -> Result<Chars, NoMemory>
    ensures { IfOk result (λ line. line ≡ leaf_text number) }
{
    Ok(Chars::from_string(format!(in alloc; "leaf {number}")?))
}

// After a word: a kind, a name and a number.
fn named_line(
    alloc: Global,
    word: &str,
    param: bool,
    name: &str,
    number: u64,
) -> Result<Chars, NoMemory>
    ensures { IfOk result (λ line. line
        ≡ word.now ++ (kind_text param ++ (name.now ++ (32 ∷ decimal number)))) }
{
    let kind = if param { "parameter" } else { "extension" };
    Ok(Chars::from_string(format!(in alloc; "{word}{kind} {name} {number}")?))
}

#[cycle(printing)]
#[tactic(auto, using(crate::proofs::TextLaws::line_laws))]
fn push_proof(
    alloc: Global,
    proof: &Proof,
    space: &Space,
    lines: &mut Lines,
) -> Result<(), NoMemory>
    ensures text { OnOk result (lines.new ≡ lines.old ++ proof_lines space.now proof.now) }
    ensures sized { OnOk result (IsTrue (is_sized proof.now)) }
{
    match proof {
        Proof::Leaf { constraint } => {
            lines.push(leaf_line(alloc, *constraint)?)?;
            Ok(())
        }
        Proof::Split {
            param,
            place,
            parts,
        } => {
            let parts = parts.as_slice();
            let name = name_at(space, *param, *place as usize);
            let line = named_line(alloc, "split ", *param, name, parts.len() as u64)?;
            lines.push(line)?;
            push_proofs(alloc, parts, space, lines)?;
            Ok(())
        }
        Proof::Cut {
            place,
            at,
            below,
            from,
        } => {
            let name = name_at(space, true, *place as usize);
            let line = named_line(alloc, "cut ", true, name, *at)?;
            lines.push(line)?;
            push_proof(alloc, below.get(), space, lines)?;
            push_proof(alloc, from.get(), space, lines)?;
            Ok(())
        }
    }
}

#[cycle(printing)]
fn push_proofs(
    alloc: Global,
    parts: &[Proof],
    space: &Space,
    lines: &mut Lines,
) -> Result<(), NoMemory>
    ensures text { OnOk result (lines.new
        ≡ lines.old ++ flat_map (proof_lines space.now) parts.now) }
    ensures sized { OnOk result (IsTrue (list_all is_sized parts.now)) }
{
    for part in parts {
        push_proof(alloc, part, space, lines)?;
    }
    Ok(())
}

/// The lines of a proof, right or wrong, a node before its children. They are read back as it.
pub fn print_proof(alloc: Global, space: &Space, proof: &Proof) -> Result<Lines, NoMemory>
    requires { IsTrue (is_named space.now proof.now) }
    ensures text { IfOk result (λ lines. lines ≡ proof_lines space.now proof.now) }
    ensures spelled { IfOk result (λ lines. SpellsProof space.now lines proof.now) }
{
    let mut lines = Many::new(alloc);
    push_proof(alloc, proof, space, &mut lines)?;
    Ok(lines)
}
