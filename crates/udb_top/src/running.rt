//! A run of the program: the command that the words ask for, its reply to the input, and both
//! written.

ghost use Rattle.std.specs.Prelude.{◌≡◌, ◌≢◌, ◌≤◌, ◌⊎◌, List, [], ℕ, IfOk};
ghost use Rattle.udb_base.specs.Faults.{Rose};
ghost use Rattle.udb_command.specs.Words.{words_of, Asks, IsNoCommand};
ghost use Rattle.udb_command.specs.Input.{IfTold, IsRead, TookTooMany, TookFew};
ghost use Rattle.udb_command.specs.Replies.{status_of, out_of, err_of, IsReplyStatus, IsFaultStatus, fixed_text, Received};
ghost use Rattle.udb_top.specs.Run.{Replies, OneStatus, IsStatus, HasReply, HasCutReply, IfAsked, NoRise, IsComplete};

use crate::manual::manual_reply;
use std::alloc::Global;
use udb_base::{NoMemory, Sink, Source};
use udb_command::{Command, Fault, Reply, command_of, read_input, send, write_reply};
use udb_search::{check_proof, refute};

// The reply of a command to its input.
fn reply_to(alloc: Global, command: &Command, input: &[u8]) -> Result<Reply, NoMemory>
    ensures { IfOk result (Replies command.now input.now) }
{
    match command {
        Command::Manual { config } => manual_reply(alloc, config.as_str(), input),
        Command::Refute { config, kind, name } => refute(alloc, input, config, *kind, name),
        Command::CheckProof { config, kind, name } => {
            check_proof(alloc, input, config, *kind, name)
        }
    }
}

// The reply of a command to what a source has left.
fn reply_to_source<S: Source>(
    alloc: Global,
    command: &Command,
    input: &mut S,
) -> Result<Reply, Fault>
    ensures later { S.faults input.old ≤ S.faults input.new }
    ensures failed { result ≡ Err Fault.Read → Rose (S.faults input.old) (S.faults input.new) }
    ensures reply { IfOk result (λ reply. (bytes : List ℕ) × (IsRead bytes (S.left input.old)
        (S.left input.new) × Replies command.now bytes reply)) }
    ensures too_long { IfTold (S.left input.old) (λ xs.
        result ≡ Err Fault.TooLong → TookTooMany xs (S.left input.new)) }
    ensures few { IfTold (S.left input.old) (λ xs. result ≢ Err Fault.TooLong →
        result ≢ Err Fault.Memory → TookFew xs (S.left input.new)) }
    ensures asked { result ≢ Err Fault.NoCommand }
{
    match read_input(alloc, input) {
        Ok(bytes) => match reply_to(alloc, command, bytes.as_slice()) {
            Ok(reply) => Ok(reply),
            Err(_) => Err(Fault::Memory),
        },
        Err(fault) => Err(fault),
    }
}

// The reply to the words and to what the source has left.
fn reply_to_words<S: Source>(alloc: Global, words: &[String], input: &mut S) -> Result<Reply, Fault>
    ensures later { S.faults input.old ≤ S.faults input.new }
    ensures no_command { result ≡ Err Fault.NoCommand → IsNoCommand (words_of words.now) }
    ensures command { IsNoCommand (words_of words.now) →
        (result ≡ Err Fault.NoCommand) × (input.new ≡ input.old) }
    ensures failed { result ≡ Err Fault.Read → Rose (S.faults input.old) (S.faults input.new) }
    ensures reply { IfOk result
        (HasReply (words_of words.now) (S.left input.old) (S.left input.new)) }
    ensures too_long { IfTold (S.left input.old) (λ xs.
        result ≡ Err Fault.TooLong → TookTooMany xs (S.left input.new)) }
    ensures few { IfTold (S.left input.old) (λ xs. result ≢ Err Fault.TooLong →
        result ≢ Err Fault.Memory → TookFew xs (S.left input.new)) }
{
    match command_of(alloc, words) {
        Ok(Some(command)) => reply_to_source(alloc, &command, input),
        Ok(None) => Err(Fault::NoCommand),
        Err(_) => Err(Fault::Memory),
    }
}

/// Runs the command that the words ask for: its reply to what `input` has is written, a success on
/// `out`, a refusal on `err`. The words are those after the program's name. The answer is the
/// status: 0 done, 2 no command, 3 a failed read, 4 a failed write, 7 want of memory, 8 an input of
/// more than 16,777,216 bytes, and 1 or 9 to 16 as the command refuses its input: of `manual` 9 a
/// bundle of another configuration, 10 an input that is no bundle, 12 a bundle of another form.
/// Causes are met in this order: 2; 3 or 8, whichever reading meets first; the command's own; 4.
/// Memory may want at any of them.
pub fn run<S: Source, T: Sink>(
    alloc: Global,
    words: &[String],
    input: &mut S,
    out: &mut T,
    err: &mut T,
) -> u8
    ensures status { IsStatus result }
    ensures later { (S.faults input.old ≤ S.faults input.new)
        × (T.faults out.old ≤ T.faults out.new) × (T.faults err.old ≤ T.faults err.new) }

    // The words, and the input.
    ensures no_command { result ≡ 2 → IsNoCommand (words_of words.now) }
    ensures command { IsNoCommand (words_of words.now) → (input.new ≡ input.old)
        × ((result ≡ 2) ⊎ ((result ≡ 4) × Rose (T.faults err.old) (T.faults err.new))) }
    ensures read { result ≡ 3 → Rose (S.faults input.old) (S.faults input.new) }
    ensures too_long { IfTold (S.left input.old) (λ xs.
        result ≡ 8 → TookTooMany xs (S.left input.new)) }
    ensures too_many { IfTold (S.left input.old) (λ xs. TookTooMany xs (S.left input.new) →
        (result ≡ 8) ⊎ ((result ≡ 7)
        ⊎ ((result ≡ 4) × Rose (T.faults err.old) (T.faults err.new)))) }

    // The reply, what comes in place of one, and a failed write.
    ensures replied { IsReplyStatus result → (reply : Reply)
        × (HasReply (words_of words.now) (S.left input.old) (S.left input.new) reply
        × (status_of reply ≡ result)
        × Received (T.written out.old) (T.written out.new) (out_of reply)
        × Received (T.written err.old) (T.written err.new) (err_of reply)) }
    ensures fixed { IsFaultStatus result → Received (T.written out.old) (T.written out.new) []
        × Received (T.written err.old) (T.written err.new) (fixed_text result) }
    ensures cut { result ≡ 4 →
        (Rose (T.faults err.old) (T.faults err.new)
        × Received (T.written out.old) (T.written out.new) [])
        ⊎ (Rose (T.faults out.old) (T.faults out.new)
        × HasCutReply (words_of words.now) (S.left input.old) (S.left input.new)
        (T.written out.old) (T.written out.new)) }
    ensures complete { IfAsked (words_of words.now) (S.left input.old) (λ command xs.
        NoRise (S.faults input.old) (S.faults input.new) →
        NoRise (T.faults out.old) (T.faults out.new) →
        NoRise (T.faults err.old) (T.faults err.new) → IsComplete command xs result) }
{
    match reply_to_words(alloc, words, input) {
        Ok(reply) => write_reply(out, err, &reply),
        Err(fault) => send(err, fault),
    }
}

/// The replies of a command to an input have one status. This is a law on the definitions.
pub fn one_status()
    ensures { OneStatus }
{}
