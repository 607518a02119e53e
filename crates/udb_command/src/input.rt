//! The input, read to its end or past its limit.

ghost use Rattle.std.specs.Prelude.{◌≡◌, ◌≢◌, ◌≤◌, ◌<◌, [], List, ℕ, Some, IfOk, OnErr, OnOk, length};
ghost use Rattle.udb_base.specs.Faults.{Rose};
ghost use Rattle.udb_command.specs.Input.{input_limit, IfTold, TookTooMany, TookFew, IsRead};

use crate::replies::Fault;
use std::alloc::Global;
use udb_base::Source;

/// The most bytes of input.
pub const LIMIT: usize = 16_777_216;

/// The bytes of a source, at most 16,777,216 of them.
pub fn read_input<S: Source>(alloc: Global, input: &mut S) -> Result<Vec<u8>, Fault>
    ensures later { S.faults input.old ≤ S.faults input.new }
    ensures failed { result ≡ Err Fault.Read → Rose (S.faults input.old) (S.faults input.new) }
    ensures read { IfOk result (λ bytes.
        IsRead bytes.items (S.left input.old) (S.left input.new)) }
    ensures too_long { IfTold (S.left input.old) (λ xs.
        result ≡ Err Fault.TooLong → TookTooMany xs (S.left input.new)) }
    ensures few { IfTold (S.left input.old) (λ xs. result ≢ Err Fault.TooLong →
        result ≢ Err Fault.Memory → TookFew xs (S.left input.new)) }
    ensures asked { result ≢ Err Fault.NoCommand }
{
    let mut bytes = Vec::new(alloc);
    let mut buffer = [0; 4096];
    'reading: while bytes.len() <= LIMIT {
        let count = match input.read(&mut buffer) {
            Ok(count) => count,
            Err(_) => return Err(Fault::Read),
        };
        if count == 0 {
            return Ok(bytes);
        }
        if bytes.extend_from_slice(&buffer[..count]).is_err() {
            return Err(Fault::Memory);
        }
    }
    Err(Fault::TooLong)
}
