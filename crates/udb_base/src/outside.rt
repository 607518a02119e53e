//! The traits of the outside: where bytes come from and where they go, what keeps
//! rows, and what takes sessions.

ghost use Rattle.std.specs.Prelude.{◌≡◌, ◌≤◌, ℕ, true, List, Option, length, IfOk};
ghost use Rattle.udb_base.specs.Faults.{HasCause, ReadTakes, WriteReceives};
ghost use Rattle.udb_base.specs.Links.{NextSession, Sessions};
ghost use Rattle.udb_base.specs.Tables.{AreKeys, Edits, HasKeepCause, IsRow, IsText, LeavesTables, Telling, with_row, without_row};

use crate::{Kind, Name, Row, RowKeys, Text};
use std::alloc::Global;

/// A call of the outside failed, which the object's count of faults tells.
#[derive(Clone, Copy, Debug, PartialEq, Eq)]
pub struct Failed;

/// Where bytes come from.
///
/// `faults` counts failed calls. It never falls, and at 2^64-1 it stays. `left` is what is left to
/// be read, where the source tells it.
pub trait Source {
    ghost faults: { Self → ℕ };

    ghost left: { Self → Option (List ℕ) };

    /// Reads into the front of `into` and answers how many bytes; 0 of a buffer with room only at
    /// the end.
    fn read(&mut self, into: &mut [u8]) -> Result<usize, Failed>
        ensures within { IfOk result (λ n. n ≤ length into.new) }
        ensures bytes { ReadTakes (left self.old) (left self.new) result into.new }
        ensures cause { HasCause (faults self.old) (faults self.new) result };
}

/// Where bytes go to.
///
/// `faults` is as in `Source`; `written` is what was received, where the sink tells it.
pub trait Sink {
    ghost faults: { Self → ℕ };

    ghost written: { Self → Option (List ℕ) };

    /// Appends the whole piece, or fails after a front of it.
    fn write(&mut self, piece: &[u8]) -> Result<(), Failed>
        ensures bytes { WriteReceives (written self.old) (written self.new) result piece.now }
        ensures cause { HasCause (faults self.old) (faults self.new) result };
}

/// Why a call of a keeper failed: for want of memory, or because of the keeper, whose count of faults
/// tells it.
#[derive(Clone, Copy, PartialEq, Eq)]
pub enum KeepFault {
    Memory,
    Failed,
}

/// Keeps the rows of the tables.
///
/// `faults` is as in `Source`, but want of memory is no fault of the keeper. `tells` says which tables
/// the keeper tells, if any. It may cease to tell them in a call, and one that tells none never
/// begins to. A call that fails, of whatever cause, leaves the tables.
pub trait Keeper {
    ghost faults: { Self → ℕ };

    ghost tells: { Self → Telling };

    /// The keys of all rows, in the order of kinds and names.
    fn rows(&mut self, alloc: Global) -> Result<RowKeys, KeepFault>
        ensures tables { LeavesTables (tells self.old) (tells self.new) }
        ensures keys { IfOk result (AreKeys (tells self.new)) }
        ensures cause { HasKeepCause (faults self.old) (faults self.new) result };

    /// The text of the row of a kind and a name, where there is one.
    fn row(&mut self, alloc: Global, kind: Kind, name: &Name) -> Result<Option<Text>, KeepFault>
        ensures tables { LeavesTables (tells self.old) (tells self.new) }
        ensures text { IfOk result (IsText (tells self.new) kind name.now) }
        ensures cause { HasKeepCause (faults self.old) (faults self.new) result };

    /// Sets a row, in the place of the one with its kind and name if there is one.
    fn put(&mut self, alloc: Global, row: Row) -> Result<(), KeepFault>
        requires { IsRow row }
        ensures edit { Edits (tells self.old) (tells self.new) result (with_row row) }
        ensures cause { HasKeepCause (faults self.old) (faults self.new) result };

    /// Takes out the row of a kind and a name, if there is one.
    fn remove(&mut self, alloc: Global, kind: Kind, name: &Name) -> Result<(), KeepFault>
        ensures edit { Edits (tells self.old) (tells self.new) result (without_row kind name.now) }
        ensures cause { HasKeepCause (faults self.old) (faults self.new) result };
}

/// Takes sessions, one after the other: of each it reads bytes and sends bytes, and closes it.
///
/// `next_faults` counts failed calls of `next`, `faults` those of the other three; both are as in
/// `Source`. `left` is what is left to be read of the session, `later` the bytes of the sessions that
/// come after it, `sent` what went out in all sessions, each where the link tells it.
pub trait Link {
    ghost faults: { Self → ℕ };

    ghost next_faults: { Self → ℕ };

    ghost left: { Self → Option (List ℕ) };

    ghost later: { Self → Option Sessions };

    ghost sent: { Self → Option (List ℕ) };

    /// Takes the next session; false where there is none left.
    fn next(&mut self) -> Result<bool, Failed>
        ensures session { NextSession (later self.old) (later self.new) (left self.new) result }
        ensures untaken { ¬ (result ≡ Ok true) → left self.new ≡ left self.old }
        ensures sent { sent self.new ≡ sent self.old }
        ensures cause { HasCause (next_faults self.old) (next_faults self.new) result }
        ensures others { faults self.new ≡ faults self.old };

    /// Reads of the session, as `Source::read` does.
    fn read(&mut self, into: &mut [u8]) -> Result<usize, Failed>
        ensures within { IfOk result (λ n. n ≤ length into.new) }
        ensures bytes { ReadTakes (left self.old) (left self.new) result into.new }
        ensures later { later self.new ≡ later self.old }
        ensures sent { sent self.new ≡ sent self.old }
        ensures cause { HasCause (faults self.old) (faults self.new) result }
        ensures nexts { next_faults self.new ≡ next_faults self.old };

    /// Sends the whole piece, or fails after a front of it.
    fn write(&mut self, piece: &[u8]) -> Result<(), Failed>
        ensures bytes { WriteReceives (sent self.old) (sent self.new) result piece.now }
        ensures later { later self.new ≡ later self.old }
        ensures left { left self.new ≡ left self.old }
        ensures cause { HasCause (faults self.old) (faults self.new) result }
        ensures nexts { next_faults self.new ≡ next_faults self.old };

    /// Ends the session, of which nothing is said after it but that nothing more was sent.
    fn close(&mut self) -> Result<(), Failed>
        ensures later { later self.new ≡ later self.old }
        ensures sent { sent self.new ≡ sent self.old }
        ensures cause { HasCause (faults self.old) (faults self.new) result }
        ensures nexts { next_faults self.new ≡ next_faults self.old };
}
