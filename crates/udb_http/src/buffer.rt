//! The bytes that were read of a session and not taken yet.

ghost use Rattle.std.specs.Prelude.{◌≡◌, ◌≤◌, ◌<◌, ◌⊎◌, ℕ, List, [], Some, true, false, take, drop, length, IfOk, IfErr, OnErr};
ghost use Rattle.udb_http.specs.Sessions.{unread, Stays, HasLinkCause};

use crate::requests::ReadFault;
use std::alloc::Global;
use std::marker::Model;
use udb_base::{Failed, Link, NoMemory};

// The most bytes of one read.
const PIECE: usize = 4_096;

/// Bytes that were read, in order, with room for one read.
#[derive(Drop)]
pub struct Buffer {
    held: Vec<u8>,
    piece: Vec<u8>,
}

impl Model for Buffer {
    ghost use Rattle.std.specs.Prelude.{◌≡◌, ℕ, List, length};

    ghost Value = { List ℕ };

    ghost view = { λ b. b.held.items };

    ghost invariant = { λ b. length b.piece.items ≡ 4096 };
}

impl Buffer {
    /// A buffer without bytes.
    pub fn new(alloc: Global) -> Result<Buffer, NoMemory>
        ensures { IfOk result (λ buffer. buffer ≡ []) }
    {
        let piece = vec![in alloc; 0; PIECE]?;
        Ok(Buffer {
            held: Vec::new(alloc),
            piece,
        })
    }

    /// The bytes.
    pub fn bytes(&self) -> &[u8]
        ensures { result.now ≡ self.now }
    {
        self.held.as_slice()
    }

    /// Gives up all bytes.
    pub fn clear(&mut self)
        ensures { self.new ≡ [] }
    {
        self.held.clear();
    }

    /// Takes bytes out of the front.
    pub fn take_front(&mut self, count: usize)
        requires { count ≤ length self.old }
        ensures { self.new ≡ drop count self.old }
    {
        self.held.drain(..count);
    }

    /// Reads once of a session: false where it has ended. Room for the bytes is taken before, so
    /// that none are lost.
    pub fn fill<L: Link>(&mut self, link: &mut L) -> Result<bool, ReadFault>
        ensures stays { Stays (unread self.old (L.left link.old))
            (unread self.new (L.left link.new)) }
        ensures front { take (length self.old) self.new ≡ self.old }
        ensures more { IfOk result (λ more. more ≡ true → length self.old < length self.new) }
        ensures ended { IfOk result (λ more. more ≡ false → (self.new ≡ self.old)
            × ((bytes : List ℕ) → unread self.old (L.left link.old) ≡ Some bytes → bytes ≡ self.old)) }
        ensures faults { IfErr result (λ e. (e ≡ ReadFault.Memory) ⊎ (e ≡ ReadFault.Link)) }
        ensures cause { HasLinkCause (L.faults link.old) (L.faults link.new) result }
        ensures later { L.later link.new ≡ L.later link.old }
        ensures sent { L.sent link.new ≡ L.sent link.old }
        ensures nexts { L.next_faults link.new ≡ L.next_faults link.old }
    {
        if self.held.reserve(PIECE).is_err() {
            return Err(ReadFault::Memory);
        }
        match link.read(self.piece.as_mut_slice()) {
            Ok(0) => Ok(false),
            Ok(count) => match self.held.extend_from_slice(&self.piece[..count]) {
                Ok(()) => Ok(true),
                Err(_) => unreachable!(),
            },
            Err(Failed) => Err(ReadFault::Link),
        }
    }
}
