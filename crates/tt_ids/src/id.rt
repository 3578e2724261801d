ghost use Rattle.std.specs.Prelude.{◌≡◌, ◌≢◌, ◌<◌, ◌^◌, ℕ, IfNone, IfOk, IfSome};
ghost use Rattle.tt_ids.specs.Ids.{id, id_named, letters};

use crate::number::number_of;
use itoa::Buffer;
use std::alloc::Global;
use tt_text::{NoMemory, Text};

/// What an id names. Each kind counts its own from 1.
#[derive(Clone, Copy, Debug, PartialEq, Eq)]
pub enum IdKind {
    /// A thread (thread(n), thread::create).
    Thread,
    /// A mutex that its owner can't take again (thread(n), thread::mutex create).
    Exclusive,
    /// A mutex that its owner can take again (thread(n), thread::mutex create -recursive).
    Recursive,
    /// A read-write lock (thread(n), thread::rwmutex create).
    ReadWrite,
    /// A condition variable (thread(n), thread::cond create).
    Condition,
    /// A pool of workers (tpool(n), tpool::create).
    Pool,
    /// An end of a pipe (chan(n), chan pipe).
    Channel,
    /// A timer of a script (after(n)).
    Timer,
}

impl IdKind {
    // What its ids begin with.
    fn letters(self) -> &'static [u8]
        ensures { result.now ≡ letters self }
    {
        match self {
            IdKind::Thread => b"tid",
            IdKind::Exclusive => b"mid",
            IdKind::Recursive => b"rid",
            IdKind::ReadWrite => b"wid",
            IdKind::Condition => b"cid",
            IdKind::Pool => b"tpool",
            IdKind::Channel => b"chan",
            IdKind::Timer => b"after#",
        }
    }
}

/// The id of the one of this kind that has this number.
///
/// `NoMemory` if the memory for the text is refused.
pub fn id_text(alloc: Global, kind: IdKind, number: u64) -> Result<Text, NoMemory>
    ensures written { IfOk result (λ text. text ≡ id kind number) }
{
    let mut text = Text::from_bytes(alloc, kind.letters())?;
    let mut buffer = Buffer::new();
    text.push_bytes(buffer.format(number).as_bytes())?;
    Ok(text)
}

/// The number of the one of this kind that has this id; `None` exactly if no number below 2^64 has it. It takes no
/// memory.
pub fn id_number(kind: IdKind, text: &[u8]) -> Option<u64>
    ensures small { IfSome result (λ number. number < 2 ^ 64) }
    ensures read { IfSome result (λ number. text.now ≡ id kind number) }
    ensures none { IfNone result ((n : ℕ) → n < 2 ^ 64 → text.now ≢ id kind n) }
    ensures named { result ≡ id_named kind text.now }
{
    let number = read_id(kind, text);
    number
}

fn read_id(kind: IdKind, text: &[u8]) -> Option<u64>
    ensures small { IfSome result (λ number. number < 2 ^ 64) }
    ensures read { IfSome result (λ number. text.now ≡ id kind number) }
    ensures none { IfNone result ((n : ℕ) → n < 2 ^ 64 → text.now ≢ id kind n) }
{
    let digits = text.strip_prefix(kind.letters())?;
    number_of(digits)
}
