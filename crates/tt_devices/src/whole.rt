ghost use Rattle.std.specs.Prelude.{◌≡◌, ◌≢◌, ◌≤◌, ◌^◌, Err, IfOk, OnErr, IsErrOf, vec_len};
ghost use Rattle.tt_devices.specs.Faults.{Rises};
ghost use Rattle.tt_devices.specs.Streams.{Empties, LosesMore, LosesPart};

use crate::Source;
use std::alloc::Global;

/// The most bytes that are read.
const MOST_BYTES: usize = 268_435_456;

/// How many bytes are asked for at once.
const CHUNK: usize = 16_384;

/// Why the bytes of a source or of a file were not read.
#[derive(Clone, Copy, Debug, PartialEq, Eq)]
pub enum Unread {
    /// There is no file of that name.
    Missing,
    /// The file could not be opened, or a read failed.
    Failed,
    /// There are more than 268,435,456 bytes.
    TooLong,
    /// Memory for the bytes was refused.
    NoMemory,
}

/// All the bytes of the source, each once and in order.
///
/// `Failed` only if the source reported a fault, `TooLong` only if it gave more than 268,435,456 bytes, and never
/// `Missing`.
pub fn read_whole<S: Source>(alloc: Global, source: &mut S) -> Result<Vec<u8>, Unread>
    ensures whole { IfOk result (λ bytes. Empties (S.held source.old) (S.held source.new) bytes.items) }
    ensures few { IfOk result (λ bytes. vec_len bytes ≤ 2 ^ 28) }
    ensures part { OnErr result (LosesPart (S.held source.old) (S.held source.new)) }
    ensures failed { IsErrOf result Unread.Failed → Rises (S.fault_count source.old) (S.fault_count source.new) }
    ensures steady { (result ≢ Err Unread.Failed) → S.fault_count source.new ≡ S.fault_count source.old }
    ensures too_long { IsErrOf result Unread.TooLong → LosesMore (S.held source.old) (S.held source.new) (2 ^ 28) }
    ensures not_missing { result ≢ Err Unread.Missing }
{
    let mut bytes = Vec::new(alloc);
    let mut chunk = [0u8; CHUNK];
    while bytes.len() <= MOST_BYTES {
        let Ok(count) = source.take(&mut chunk) else {
            return Err(Unread::Failed);
        };
        if count == 0 {
            return Ok(bytes);
        }
        if bytes.extend_from_slice(&chunk[..count]).is_err() {
            return Err(Unread::NoMemory);
        }
    }
    Err(Unread::TooLong)
}
