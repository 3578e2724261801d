use crate::names::{OfChannel, OfLock, OfPool, OfVariable};
use crate::requests::outcome;
use rows_reader::Words;
use tt_calls::{ChanCall, Family, Kind, LockCall, PoolCall, TsvCall};

pub(crate) fn tsv_call(which: OfVariable, words: &Words) -> anyhow::Result<TsvCall> {
    let call = match which {
        OfVariable::Hold => TsvCall::Hold {
            array: words.text(0)?,
        },
        OfVariable::Unhold => TsvCall::Unhold {
            array: words.text(0)?,
        },
        OfVariable::Run => TsvCall::Run {
            words: words.list(0)?,
        },
    };
    Ok(call)
}

// How kinds and families of locks are written.
const KINDS: [(&str, Kind); 4] = [
    ("exclusive", Kind::Exclusive),
    ("recursive", Kind::Recursive),
    ("read-write", Kind::ReadWrite),
    ("condition", Kind::Condition),
];

const FAMILIES: [(&str, Family); 3] = [
    ("mutex", Family::Mutex),
    ("read-write", Family::ReadWrite),
    ("condition", Family::Condition),
];

fn kind(words: &Words) -> anyhow::Result<Kind> {
    let word = words.bytes(0)?;
    for (name, kind) in KINDS {
        if word == name.as_bytes() {
            return Ok(kind);
        }
    }
    anyhow::bail!("no kind of locks")
}

fn family(words: &Words) -> anyhow::Result<Family> {
    let word = words.bytes(0)?;
    for (name, family) in FAMILIES {
        if word == name.as_bytes() {
            return Ok(family);
        }
    }
    anyhow::bail!("no family of locks")
}

pub(crate) fn lock_call(which: OfLock, words: &Words) -> anyhow::Result<LockCall> {
    let call = match which {
        OfLock::Create => LockCall::Create { kind: kind(words)? },
        OfLock::Destroy => LockCall::Destroy {
            family: family(words)?,
            id: words.text(1)?,
        },
        OfLock::Lock => LockCall::Lock { id: words.text(0)? },
        OfLock::ReadLock => LockCall::ReadLock { id: words.text(0)? },
        OfLock::WriteLock => LockCall::WriteLock { id: words.text(0)? },
        OfLock::Unlock => LockCall::Unlock {
            family: family(words)?,
            id: words.text(1)?,
        },
        OfLock::Notify => LockCall::Notify { id: words.text(0)? },
        OfLock::CondWait => LockCall::CondWait {
            cond: words.text(0)?,
            mutex: words.text(1)?,
            after: None,
        },
        OfLock::CondTake => LockCall::CondTake {
            cond: words.text(0)?,
            mutex: words.text(1)?,
        },
    };
    Ok(call)
}

pub(crate) fn pool_call(which: OfPool, words: &Words) -> anyhow::Result<PoolCall> {
    let call = match which {
        OfPool::Create => PoolCall::Create {
            least: words.number(0)?,
            most: words.number(1)?,
            init: words.text(2)?,
            exit: words.text(3)?,
        },
        OfPool::Names => PoolCall::Names,
        OfPool::Preserve => PoolCall::Preserve {
            pool: words.text(0)?,
        },
        OfPool::Release => PoolCall::Release {
            pool: words.text(0)?,
        },
        OfPool::Suspend => PoolCall::Suspend {
            pool: words.text(0)?,
            on: true,
        },
        OfPool::Resume => PoolCall::Suspend {
            pool: words.text(0)?,
            on: false,
        },
        _ => job_call(which, words)?,
    };
    Ok(call)
}

fn job_call(which: OfPool, words: &Words) -> anyhow::Result<PoolCall> {
    let pool = words.text(0)?;
    let call = match which {
        OfPool::Post => PoolCall::Post {
            pool,
            script: words.text(1)?,
            detached: words.is(2, "detached", "-")?,
        },
        OfPool::Look => PoolCall::Look {
            pool,
            jobs: words.list(1)?,
        },
        OfPool::Cancel => PoolCall::Cancel {
            pool,
            jobs: words.list(1)?,
        },
        OfPool::Get => PoolCall::Get {
            pool,
            job: words.text(1)?,
        },
        OfPool::JobDone => PoolCall::JobDone {
            pool,
            job: u64::from(words.number(1)?),
            outcome: outcome(words, 2)?,
        },
        _ => PoolCall::JobTake { pool },
    };
    Ok(call)
}

pub(crate) fn chan_call(which: OfChannel, words: &Words) -> anyhow::Result<ChanCall> {
    let call = match which {
        OfChannel::Pipe => ChanCall::Pipe,
        OfChannel::Put => ChanCall::Put {
            chan: words.text(0)?,
            bytes: words.text(1)?,
        },
        OfChannel::GetLine => ChanCall::GetLine {
            chan: words.text(0)?,
        },
        OfChannel::Eof => ChanCall::Eof {
            chan: words.text(0)?,
        },
        OfChannel::Close => ChanCall::Close {
            chan: words.text(0)?,
        },
        OfChannel::Detach => ChanCall::Detach {
            chan: words.text(0)?,
        },
        OfChannel::Attach => ChanCall::Attach {
            chan: words.text(0)?,
        },
        OfChannel::Transfer => ChanCall::Transfer {
            id: words.text(0)?,
            chan: words.text(1)?,
        },
        OfChannel::AwaitMove => ChanCall::AwaitMove {
            chan: words.text(0)?,
        },
    };
    Ok(call)
}
