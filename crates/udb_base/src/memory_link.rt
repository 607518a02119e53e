//! A link in memory, and how it fails.

ghost use Rattle.std.specs.Prelude.{◌≡◌, ◌≤◌, length, map, true, IfOk, Some};
ghost use Rattle.udb_base.specs.Faults.{HasCause, ReadTakes, WriteReceives};
ghost use Rattle.udb_base.specs.Memory.{CountsFailures, FailsWhereListed, IsCounted, IsNewLink, LinkFails, TakesSession, read_count};

use crate::outside::{Failed, Link};
use crate::{Many, NoMemory};
use std::alloc::Global;
use std::marker::Model;

/// A link over sessions in memory, with room for so many sent bytes. A read gives at most `cut` bytes.
/// Its calls are counted from 1; those that `fails` lists fail, and so does a write past the room.
#[derive(Drop)]
pub struct MemoryLink {
    session: Many<u8>,
    at: usize,
    later: Many<Many<u8>>,
    sent: Vec<u8>,
    cut: usize,
    room: usize,
    fails: Vec<u64>,
    calls: u64,
    faults: u64,
    next_faults: u64,
}

impl Model for MemoryLink {
    ghost use Rattle.std.specs.Prelude.{◌≤◌, drop, length, vec_capacity};
    ghost use Rattle.udb_base.specs.Memory.{LinkState};

    ghost Value = { LinkState };

    ghost view = { λ s. record { left = drop s.at s.session; later = s.later; sent = s.sent.items; cut = s.cut; room = s.room; fails = s.fails.items; calls = s.calls; faults = s.faults; next_faults = s.next_faults } };

    ghost invariant = { λ s. (s.at ≤ length s.session) × (1 ≤ s.cut) × (length s.sent.items ≤ s.room) × (s.room ≤ vec_capacity s.sent) };
}

// A copy of the bytes of each session.
fn copy_sessions(alloc: Global, sessions: &[&[u8]]) -> Result<Many<Many<u8>>, NoMemory>
    ensures { IfOk result (λ copies. copies ≡ map (λ s. s.now) sessions.now) }
{
    let mut copies = Many::new(alloc);
    for session in sessions {
        copies.push(Many::from_slice(alloc, session)?)?;
    }
    Ok(copies)
}

impl MemoryLink {
    /// A link that takes these sessions, of which a read gives at most `cut` bytes, with room for
    /// `room` sent bytes, which are taken at once, that fails at these calls, counted from 1. The one
    /// refusal is want of memory.
    pub fn new(
        alloc: Global,
        sessions: &[&[u8]],
        cut: usize,
        room: usize,
        fails: &[u64],
    ) -> Result<MemoryLink, NoMemory>
        requires { 1 ≤ cut }
        ensures { IfOk result (IsNewLink (map (λ s. s.now) sessions.now) cut room fails.now) }
    {
        Ok(MemoryLink {
            session: Many::new(alloc),
            at: 0,
            later: copy_sessions(alloc, sessions)?,
            sent: Vec::with_capacity(alloc, room)?,
            cut,
            room,
            fails: Vec::from_slice(alloc, fails)?,
            calls: 0,
            faults: 0,
            next_faults: 0,
        })
    }

    /// How many calls of `read`, `write` and `close` failed.
    pub fn faults(&self) -> u64
        ensures { result ≡ self.now.faults }
    {
        self.faults
    }

    /// How many calls of `next` failed.
    pub fn next_faults(&self) -> u64
        ensures { result ≡ self.now.next_faults }
    {
        self.next_faults
    }

    /// The bytes that were sent, in order.
    pub fn sent(&self) -> &[u8]
        ensures { result.now ≡ self.now.sent }
    {
        self.sent.as_slice()
    }
}

impl Link for MemoryLink {
    ghost faults = { λ l. l.faults };

    ghost next_faults = { λ l. l.next_faults };

    ghost left = { λ l. Some l.left };

    ghost later = { λ l. Some l.later };

    ghost sent = { λ l. Some l.sent };

    fn next(&mut self) -> Result<bool, Failed>
        ensures session { TakesSession self.old self.new result }
        ensures untaken { ¬ (result ≡ Ok true) → self.new.left ≡ self.old.left }
        ensures sent { self.new.sent ≡ self.old.sent }
        ensures cause { HasCause self.old.next_faults self.new.next_faults result }
        ensures counted { CountsFailures self.old.next_faults self.new.next_faults result }
        ensures listed { FailsWhereListed self.old.fails self.old.calls result }
        ensures others { self.new.faults ≡ self.old.faults }
        ensures calls { IsCounted self.old self.new }
    {
        self.calls = self.calls.saturating_add(1);
        if self.fails.contains(&self.calls) {
            self.next_faults = self.next_faults.saturating_add(1);
            return Err(Failed);
        }
        if self.later.is_empty() {
            return Ok(false);
        }
        self.session = self.later.remove(0);
        self.at = 0;
        Ok(true)
    }

    fn read(&mut self, into: &mut [u8]) -> Result<usize, Failed>
        ensures within { IfOk result (λ n. n ≤ length into.new) }
        ensures bytes { ReadTakes (Some self.old.left) (Some self.new.left) result into.new }
        ensures cut { IfOk result (λ n. n ≡ read_count self.old (length into.old)) }
        ensures later { self.new.later ≡ self.old.later }
        ensures sent { self.new.sent ≡ self.old.sent }
        ensures cause { HasCause self.old.faults self.new.faults result }
        ensures counted { CountsFailures self.old.faults self.new.faults result }
        ensures listed { FailsWhereListed self.old.fails self.old.calls result }
        ensures nexts { self.new.next_faults ≡ self.old.next_faults }
        ensures calls { IsCounted self.old self.new }
    {
        self.calls = self.calls.saturating_add(1);
        if self.fails.contains(&self.calls) {
            self.faults = self.faults.saturating_add(1);
            return Err(Failed);
        }
        let unread = &self.session.as_slice()[self.at..];
        let count = self.cut.min(unread.len().min(into.len()));
        into[..count].copy_from_slice(&unread[..count]);
        self.at += count;
        Ok(count)
    }

    fn write(&mut self, piece: &[u8]) -> Result<(), Failed>
        ensures bytes { WriteReceives (Some self.old.sent) (Some self.new.sent) result piece.now }
        ensures later { self.new.later ≡ self.old.later }
        ensures left { self.new.left ≡ self.old.left }
        ensures cause { HasCause self.old.faults self.new.faults result }
        ensures counted { CountsFailures self.old.faults self.new.faults result }
        ensures listed { LinkFails self.old piece.now result }
        ensures nexts { self.new.next_faults ≡ self.old.next_faults }
        ensures calls { IsCounted self.old self.new }
    {
        self.calls = self.calls.saturating_add(1);
        let past = self.room - self.sent.len() < piece.len();
        if past || self.fails.contains(&self.calls) {
            self.faults = self.faults.saturating_add(1);
            return Err(Failed);
        }
        match self.sent.extend_from_slice(piece) {
            Ok(()) => Ok(()),
            Err(_) => unreachable!(),
        }
    }

    fn close(&mut self) -> Result<(), Failed>
        ensures later { self.new.later ≡ self.old.later }
        ensures left { self.new.left ≡ self.old.left }
        ensures sent { self.new.sent ≡ self.old.sent }
        ensures cause { HasCause self.old.faults self.new.faults result }
        ensures counted { CountsFailures self.old.faults self.new.faults result }
        ensures listed { FailsWhereListed self.old.fails self.old.calls result }
        ensures nexts { self.new.next_faults ≡ self.old.next_faults }
        ensures calls { IsCounted self.old self.new }
    {
        self.calls = self.calls.saturating_add(1);
        if self.fails.contains(&self.calls) {
            self.faults = self.faults.saturating_add(1);
            return Err(Failed);
        }
        Ok(())
    }
}
