//! Room for what is read of a session.

ghost use Rattle.std.specs.Prelude.{◌≡◌, [], length, IfOk};

use crate::buffer::Buffer;
use httparse::spans::{EMPTY_HEADER_SPAN, HeaderSpan};
use std::alloc::Global;
use std::marker::Model;
use udb_base::NoMemory;

/// The bytes that were read past the last request, which a contract sees, with room for the fields
/// of a head. Each field takes a byte at least, so no head has more than there is room for.
#[derive(Drop)]
pub struct Room {
    pub(crate) buffer: Buffer,
    pub(crate) fields: Vec<HeaderSpan>,
}

impl Model for Room {
    ghost use Rattle.std.specs.Prelude.{◌≡◌, ℕ, List, length};

    ghost Value = { List ℕ };

    ghost view = { λ r. r.buffer };

    ghost invariant = { λ r. length r.fields.items ≡ 16384 };
}

fn field_room(alloc: Global) -> Result<Vec<HeaderSpan>, NoMemory>
    ensures { IfOk result (λ fields. length fields.items ≡ 16384) }
{
    vec![in alloc; EMPTY_HEADER_SPAN; 16_384]
}

impl Room {
    /// An empty room. The one refusal is want of memory.
    pub fn new(alloc: Global) -> Result<Room, NoMemory>
        ensures { IfOk result (λ room. room ≡ []) }
    {
        let fields = field_room(alloc)?;
        let buffer = Buffer::new(alloc)?;
        Ok(Room { buffer, fields })
    }

    /// Gives up the bytes of a session that is over, so that the room serves the next one.
    pub fn clear(&mut self)
        ensures { self.new ≡ [] }
    {
        self.buffer.clear();
    }
}
