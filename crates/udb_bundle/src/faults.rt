//! Why a line can't be taken.

/// Want of memory, or a line with which no bundle goes on.
#[derive(Clone, Copy)]
pub enum LineFault {
    Memory,
    Bad,
}
