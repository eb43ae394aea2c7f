ghost use Rattle.std.specs.Prelude.{◌≡◌, ◌<◌, ◌≤◌, ◌^◌, ◌-◌, vec_len, IfOk, OnOk, IsErrOf};
ghost use Rattle.std.specs.Io.KnownBytes.{Consumes, IsAtEnd};
ghost use Rattle.prefsql_io.specs.Counts.{HasCause};
ghost use Rattle.prefsql_io.specs.Streams.{TakesFront, TakesPast};

use crate::Source;
use std::alloc::Global;
use thiserror::Error;

/// Why a source was not read to its end.
#[derive(Clone, Copy, Debug, PartialEq, Eq, Error)]
pub enum ReadError {
    /// A read failed.
    #[error("a read failed")]
    Failed,
    /// More bytes than the limit were left.
    #[error("more bytes than the limit")]
    TooLong,
    /// Want of memory.
    #[error("out of memory")]
    Memory,
}

/// The greatest number of bytes that are asked for at once.
const CHUNK: usize = 4096;

/// Gives all that is left, at most `limit` bytes. `TooLong` comes after `limit + 1` bytes were
/// taken. After each refusal what is left is an end of what was left before. After the first read
/// that failed no other is tried, so that the source's count of faults is as it was unless the
/// answer is `Failed`.
pub fn read_to_end<S: Source>(
    alloc: Global,
    source: &mut S,
    limit: usize,
) -> Result<Vec<u8>, ReadError>
    requires { limit < 2 ^ 64 - 1 }
    ensures bound { IfOk result (λ bytes. vec_len bytes ≤ limit) }
    ensures all { IfOk result
        (λ bytes. Consumes (S.left source.old) (S.left source.new) bytes.items) }
    ensures end { OnOk result (IsAtEnd (S.left source.new)) }
    ensures refused { TakesFront (S.left source.old) (S.left source.new) }
    ensures too_long { IsErrOf result ReadError.TooLong
        → TakesPast (S.left source.old) (S.left source.new) limit }
    ensures cause { HasCause (S.faults source.old) (S.faults source.new)
        (IsErrOf result ReadError.Failed) }
    ensures kept { (IsErrOf result ReadError.Failed → ⊥)
        → S.faults source.new ≡ S.faults source.old }
{
    let mut bytes = Vec::new(alloc);
    let mut chunk = [0; CHUNK];
    while bytes.len() <= limit {
        let room = CHUNK.min(limit - bytes.len() + 1);
        let count = match source.read(&mut chunk[..room]) {
            Ok(count) => count,
            Err(_) => return Err(ReadError::Failed),
        };
        if count == 0 {
            return Ok(bytes);
        }
        if bytes.extend_from_slice(&chunk[..count]).is_err() {
            return Err(ReadError::Memory);
        }
    }
    Err(ReadError::TooLong)
}
