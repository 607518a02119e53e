//! Bodies that end in a return.

ghost use Rattle.std.specs.Prelude.{◌≡◌};
ghost use Rattle.idl_spec.specs.Deeds.{stmt_ends, ends_in_return};

use idl_tree::Stmt;

#[cycle(endings)]
#[tactic(auto, using(idl_spec::specs::DeedLaws::deeds))]
fn ends(s: &Stmt) -> bool
    ensures { result ≡ stmt_ends s.now }
{
    match s {
        Stmt::Return(_) => true,
        Stmt::Block(block) => ends_in_return(block.as_slice()),
        Stmt::If { test: _, yes, no } => match no {
            Some(no) => ends_in_return(yes.as_slice()) && ends_in_return(no.as_slice()),
            None => false,
        },
        Stmt::Declare {
            shape: _,
            name: _,
            value: _,
        } => false,
        Stmt::Assign {
            target: _,
            value: _,
        } => false,
        Stmt::For {
            name: _,
            from: _,
            to: _,
            block: _,
        } => false,
        Stmt::Jump(_) => false,
        Stmt::Raise { code: _, tval: _ } => false,
        Stmt::WriteMemory {
            bits: _,
            at: _,
            value: _,
        } => false,
        Stmt::SoftWrite {
            address: _,
            value: _,
        } => false,
        Stmt::Call { name: _, args: _ } => false,
    }
}

/// Whether the last statement is a return, or a block or an `if` with `else` whose blocks so end.
#[cycle(endings)]
#[tactic(auto, using(crate::proofs::LastOne::last_laws))]
pub fn ends_in_return(statements: &[Stmt]) -> bool
    ensures { result ≡ ends_in_return statements.now }
{
    let mut last = false;
    for s in statements {
        last = ends(s);
    }
    last
}
