//! Replies, the faults that come in place of one, and the writer of both.

ghost use Rattle.std.specs.Prelude.{◌≡◌, ◌≢◌, ◌≤◌, ◌⊎◌, [], ℕ, List, true, false};
ghost use Rattle.udb_base.specs.Faults.{Rose};
ghost use Rattle.udb_command.specs.Replies.{status_of, out_of, err_of, IsReplyStatus, fault_status, fixed_text, Received, ReceivedFront, IsCut};

use udb_base::{Chars, Sink};

/// What a command answers to its input: a text for the output, or a status, 1 or one from 9 to 16,
/// with its text for the output for errors.
#[derive(Debug, Drop)]
pub enum Reply {
    Done { text: Chars },
    Refused { status: u8, text: Chars },
}

/// Why there is no reply. Its status and text are fixed, so that writing them takes no memory.
#[derive(Clone, Copy, Debug, PartialEq, Eq)]
pub enum Fault {
    NoCommand,
    Read,
    Memory,
    TooLong,
}

const DONE: u8 = 0;

const WRITE_FAILED: u8 = 4;

impl Fault {
    fn status(self) -> u8
        ensures { result ≡ fault_status self }
    {
        match self {
            Fault::NoCommand => 2,
            Fault::Read => 3,
            Fault::Memory => 7,
            Fault::TooLong => 8,
        }
    }

    fn text(self) -> &'static str
        ensures { result.now ≡ fixed_text (fault_status self) }
    {
        match self {
            Fault::NoCommand => "not a command\n",
            Fault::Read => "read failed\n",
            Fault::Memory => "out of memory\n",
            Fault::TooLong => "input too long\n",
        }
    }
}

// Writes a text; whether that was done.
fn put<T: Sink>(sink: &mut T, text: &[u8]) -> bool
    ensures later { T.faults sink.old ≤ T.faults sink.new }
    ensures failed { result ≡ false → Rose (T.faults sink.old) (T.faults sink.new) }
    ensures whole { result ≡ true → Received (T.written sink.old) (T.written sink.new) text.now }
    ensures front { ReceivedFront (T.written sink.old) (T.written sink.new) text.now }
{
    match sink.write(text) {
        Ok(()) => true,
        Err(_) => false,
    }
}

/// Writes the text of a fault. The answer is its status, or 4 where writing failed.
pub fn send<T: Sink>(err: &mut T, fault: Fault) -> u8
    ensures status { (result ≡ fault_status fault) ⊎ (result ≡ 4) }
    ensures later { T.faults err.old ≤ T.faults err.new }
    ensures failed { result ≡ 4 → Rose (T.faults err.old) (T.faults err.new) }
    ensures received { result ≢ 4 →
        Received (T.written err.old) (T.written err.new) (fixed_text result) }
{
    if put(err, fault.text().as_bytes()) {
        fault.status()
    } else {
        WRITE_FAILED
    }
}

/// Writes a reply: the text of a success on `out`, that of a refusal on `err`. The answer is the
/// reply's status, or 4 where writing failed.
pub fn write_reply<T: Sink>(out: &mut T, err: &mut T, reply: &Reply) -> u8
    requires { IsReplyStatus (status_of reply.now) }
    ensures status { (result ≡ status_of reply.now) ⊎ (result ≡ 4) }
    ensures out_later { T.faults out.old ≤ T.faults out.new }
    ensures err_later { T.faults err.old ≤ T.faults err.new }
    ensures out { result ≢ 4 → Received (T.written out.old) (T.written out.new) (out_of reply.now) }
    ensures err { result ≢ 4 → Received (T.written err.old) (T.written err.new) (err_of reply.now) }
    ensures cut { result ≡ 4 →
        (Rose (T.faults err.old) (T.faults err.new)
        × Received (T.written out.old) (T.written out.new) [])
        ⊎ (Rose (T.faults out.old) (T.faults out.new)
        × IsCut reply.now (T.written out.old) (T.written out.new)) }
{
    match reply {
        Reply::Done { text } => {
            if put(out, text.as_bytes()) {
                DONE
            } else {
                WRITE_FAILED
            }
        }
        Reply::Refused { status, text } => {
            if put(err, text.as_bytes()) {
                *status
            } else {
                WRITE_FAILED
            }
        }
    }
}
