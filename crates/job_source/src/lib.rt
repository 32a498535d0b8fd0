//! A job's text, read from a source to its end.
#![tactic(auto)]

ghost use Rattle.std.specs.Prelude.{◌≡◌, ◌⊎◌, ◌≤◌, ◌<◌, ℕ, List, length, IfOk, OnOk, IfErr, IfSome, IsErrOf};
ghost use Rattle.std.specs.Io.KnownBytes.{IsAtEnd};
ghost use Rattle.dap_base.specs.Causes.{Rose};
ghost use Rattle.job_source.specs.Source.{AreBytesOf, AreTaken, limit};

use dap_base::Source;
use std::alloc::Global;

// The most bytes of a job.
const LIMIT: usize = 16_777_216;

// How many bytes are asked of a source at once.
const CHUNK: usize = 4096;

/// Why a source was not read to its end.
#[derive(Clone, Copy, Debug, PartialEq, Eq)]
pub enum Unread {
    /// One byte more than the limit was taken.
    TooLong,
    /// The source failed.
    Failed,
    /// Memory was refused.
    OutOfMemory,
}

/// Reads all bytes that a source has left, at most 16,777,216.
///
/// # Errors
///
/// - [`Unread::TooLong`] exactly where the source has more bytes. Then 16,777,217 of them are taken.
/// - [`Unread::Failed`] where the source failed. Bytes that were taken before are lost.
/// - [`Unread::OutOfMemory`] where memory was refused. Bytes that were taken before are lost.
pub fn read_job<S: Source>(alloc: Global, source: &mut S) -> Result<Vec<u8>, Unread>
    ensures whole { IfOk result (λ v. AreBytesOf (S.left source.old) v.items) }
    ensures short { IfOk result (λ v. length v.items ≤ limit) }
    ensures end { OnOk result (IsAtEnd (S.left source.new)) }
    ensures too_long { IsErrOf result Unread.TooLong → (bytes : List ℕ) × AreBytesOf (S.left source.old) bytes × (limit < length bytes) }
    ensures taken { OnOk result (AreTaken (S.left source.old) (S.left source.new)) }
    ensures taken_too_far { IsErrOf result Unread.TooLong → AreTaken (S.left source.old) (S.left source.new) }
    ensures failed { IsErrOf result Unread.Failed → Rose (S.faults source.old) (S.faults source.new) }
    ensures quiet { IfErr result (λ e. (e ≡ Unread.Failed) ⊎ (S.faults source.new ≡ S.faults source.old)) }
    ensures quiet_ok { OnOk result (S.faults source.new ≡ S.faults source.old) }
{
    let mut bytes = Vec::new(alloc);
    let mut chunk = [0u8; CHUNK];
    while bytes.len() <= LIMIT {
        let room = (LIMIT + 1 - bytes.len()).min(chunk.len());
        let Ok(count) = source.take(&mut chunk[..room]) else {
            return Err(Unread::Failed);
        };
        if count == 0 {
            return Ok(bytes);
        }
        if bytes.extend_from_slice(&chunk[..count]).is_err() {
            return Err(Unread::OutOfMemory);
        }
    }
    Err(Unread::TooLong)
}
