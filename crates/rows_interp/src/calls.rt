//! A call is named, with what it holds.

use crate::telling::Telling;
use tt_calls::{ChanCall, Family, Kind, LockCall, PoolCall, TsvCall};
use tt_text::NoMemory;

pub(crate) fn tell_tsv(telling: &mut Telling, call: &TsvCall) -> Result<(), NoMemory> {
    match call {
        TsvCall::Hold { array } => {
            telling.word("Hold")?;
            telling.text(array)
        }
        TsvCall::Unhold { array } => {
            telling.word("Unhold")?;
            telling.text(array)
        }
        TsvCall::Run { words } => {
            telling.word("Run")?;
            telling.list(words)
        }
    }
}

pub(crate) fn tell_lock(telling: &mut Telling, call: &LockCall) -> Result<(), NoMemory> {
    telling.word(lock_name(call))?;
    match call {
        LockCall::Create { kind } => telling.word(kind_name(*kind)),
        LockCall::Destroy { family, id } | LockCall::Unlock { family, id } => {
            telling.word(family_name(*family))?;
            telling.text(id)
        }
        LockCall::Lock { id }
        | LockCall::ReadLock { id }
        | LockCall::WriteLock { id }
        | LockCall::Notify { id } => telling.text(id),
        LockCall::CondWait { cond, mutex, .. } | LockCall::CondTake { cond, mutex } => {
            telling.text(cond)?;
            telling.text(mutex)
        }
    }
}

fn lock_name(call: &LockCall) -> &'static str {
    match call {
        LockCall::Create { .. } => "Create",
        LockCall::Destroy { .. } => "Destroy",
        LockCall::Lock { .. } => "Lock",
        LockCall::ReadLock { .. } => "ReadLock",
        LockCall::WriteLock { .. } => "WriteLock",
        LockCall::Unlock { .. } => "Unlock",
        LockCall::Notify { .. } => "Notify",
        LockCall::CondWait { .. } => "CondWait",
        LockCall::CondTake { .. } => "CondTake",
    }
}

fn kind_name(kind: Kind) -> &'static str {
    match kind {
        Kind::Exclusive => "Exclusive",
        Kind::Recursive => "Recursive",
        Kind::ReadWrite => "ReadWrite",
        Kind::Condition => "Condition",
    }
}

fn family_name(family: Family) -> &'static str {
    match family {
        Family::Mutex => "Mutex",
        Family::ReadWrite => "ReadWrite",
        Family::Condition => "Condition",
    }
}

pub(crate) fn tell_pool(telling: &mut Telling, call: &PoolCall) -> Result<(), NoMemory> {
    telling.word(pool_name(call))?;
    match call {
        PoolCall::Names => Ok(()),
        PoolCall::Preserve { pool } | PoolCall::Release { pool } | PoolCall::JobTake { pool } => {
            telling.text(pool)
        }
        PoolCall::Suspend { pool, on } => {
            telling.text(pool)?;
            telling.flag(*on)
        }
        PoolCall::Create {
            least,
            most,
            init,
            exit,
        } => {
            telling.whole(i64::from(*least))?;
            telling.whole(i64::from(*most))?;
            telling.text(init)?;
            telling.text(exit)
        }
        PoolCall::Post { .. }
        | PoolCall::Look { .. }
        | PoolCall::Cancel { .. }
        | PoolCall::Get { .. }
        | PoolCall::JobDone { .. } => tell_jobs(telling, call),
    }
}

fn pool_name(call: &PoolCall) -> &'static str {
    match call {
        PoolCall::Create { .. } => "Create",
        PoolCall::Names => "Names",
        PoolCall::Post { .. } => "Post",
        PoolCall::Look { .. } => "Look",
        PoolCall::Cancel { .. } => "Cancel",
        PoolCall::Get { .. } => "Get",
        PoolCall::Preserve { .. } => "Preserve",
        PoolCall::Release { .. } => "Release",
        PoolCall::Suspend { .. } => "Suspend",
        PoolCall::JobTake { .. } => "JobTake",
        PoolCall::JobDone { .. } => "JobDone",
    }
}

fn tell_jobs(telling: &mut Telling, call: &PoolCall) -> Result<(), NoMemory> {
    match call {
        PoolCall::Post {
            pool,
            script,
            detached,
        } => {
            telling.text(pool)?;
            telling.text(script)?;
            telling.flag(*detached)
        }
        PoolCall::Look { pool, jobs } | PoolCall::Cancel { pool, jobs } => {
            telling.text(pool)?;
            telling.list(jobs)
        }
        PoolCall::Get { pool, job } => {
            telling.text(pool)?;
            telling.text(job)
        }
        PoolCall::JobDone { pool, job, outcome } => {
            telling.text(pool)?;
            telling.post(*job)?;
            telling.outcome(outcome)
        }
        _ => Ok(()),
    }
}

pub(crate) fn tell_chan(telling: &mut Telling, call: &ChanCall) -> Result<(), NoMemory> {
    telling.word(chan_name(call))?;
    match call {
        ChanCall::Pipe => Ok(()),
        ChanCall::Put { chan, bytes } => {
            telling.text(chan)?;
            telling.text(bytes)
        }
        ChanCall::Transfer { id, chan } => {
            telling.text(id)?;
            telling.text(chan)
        }
        ChanCall::GetLine { chan }
        | ChanCall::Eof { chan }
        | ChanCall::Close { chan }
        | ChanCall::Detach { chan }
        | ChanCall::Attach { chan }
        | ChanCall::AwaitMove { chan } => telling.text(chan),
    }
}

fn chan_name(call: &ChanCall) -> &'static str {
    match call {
        ChanCall::Pipe => "Pipe",
        ChanCall::Put { .. } => "Put",
        ChanCall::GetLine { .. } => "GetLine",
        ChanCall::Eof { .. } => "Eof",
        ChanCall::Close { .. } => "Close",
        ChanCall::Detach { .. } => "Detach",
        ChanCall::Attach { .. } => "Attach",
        ChanCall::Transfer { .. } => "Transfer",
        ChanCall::AwaitMove { .. } => "AwaitMove",
    }
}
