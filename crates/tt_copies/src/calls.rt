ghost use Rattle.std.specs.Prelude.{◌≡◌, IfOk};
ghost use Rattle.tt_calls.specs.declared.chan_call.ChanCall.TheVariants.{Put, Transfer};
ghost use Rattle.tt_calls.specs.declared.lock_call.LockCall.TheVariants.{CondTake, CondWait};
ghost use Rattle.tt_calls.specs.declared.pool_call.PoolCall.TheVariants.{Cancel, Create, Get, JobDone, Look, Post};

use std::alloc::Global;
use tt_calls::{Boxed, ChanCall, LockCall, Outcome, PoolCall, TsvCall};
use tt_text::{NoMemory, Text, Texts};

/// A second call on shared variables.
pub(crate) fn copy_tsv_call(alloc: Global, call: &TsvCall) -> Result<Boxed<TsvCall>, NoMemory>
    ensures { IfOk result (λ copy. copy ≡ call.now) }
{
    let copy = tsv_call(alloc, call)?;
    Boxed::new(alloc, copy)
}

fn tsv_call(alloc: Global, call: &TsvCall) -> Result<TsvCall, NoMemory>
    ensures { IfOk result (λ copy. copy ≡ call.now) }
{
    match call {
        TsvCall::Hold { array } => Ok(TsvCall::Hold {
            array: array.copy()?,
        }),
        TsvCall::Unhold { array } => Ok(TsvCall::Unhold {
            array: array.copy()?,
        }),
        TsvCall::Run { words } => Ok(TsvCall::Run {
            words: Texts::from_copies(alloc, words.as_slice())?,
        }),
    }
}

/// A second call on a lock.
pub(crate) fn copy_lock_call(alloc: Global, call: &LockCall) -> Result<Boxed<LockCall>, NoMemory>
    ensures { IfOk result (λ copy. copy ≡ call.now) }
{
    let copy = lock_call(call)?;
    Boxed::new(alloc, copy)
}

fn lock_call(call: &LockCall) -> Result<LockCall, NoMemory>
    ensures { IfOk result (λ copy. copy ≡ call.now) }
{
    match call {
        LockCall::Create { kind } => Ok(LockCall::Create { kind: *kind }),
        LockCall::Destroy { family, id } => Ok(LockCall::Destroy {
            family: *family,
            id: id.copy()?,
        }),
        LockCall::Lock { id } => Ok(LockCall::Lock { id: id.copy()? }),
        LockCall::ReadLock { id } => Ok(LockCall::ReadLock { id: id.copy()? }),
        LockCall::WriteLock { id } => Ok(LockCall::WriteLock { id: id.copy()? }),
        LockCall::Unlock { family, id } => Ok(LockCall::Unlock {
            family: *family,
            id: id.copy()?,
        }),
        LockCall::Notify { id } => Ok(LockCall::Notify { id: id.copy()? }),
        LockCall::CondWait { cond, mutex, after } => cond_wait(cond, mutex, *after),
        LockCall::CondTake { cond, mutex } => cond_take(cond, mutex),
    }
}

fn cond_wait(cond: &Text, mutex: &Text, after: Option<u64>) -> Result<LockCall, NoMemory>
    ensures { IfOk result (λ copy. copy ≡ CondWait cond.now mutex.now after) }
{
    let cond = cond.copy()?;
    let mutex = mutex.copy()?;
    Ok(LockCall::CondWait { cond, mutex, after })
}

fn cond_take(cond: &Text, mutex: &Text) -> Result<LockCall, NoMemory>
    ensures { IfOk result (λ copy. copy ≡ CondTake cond.now mutex.now) }
{
    let cond = cond.copy()?;
    let mutex = mutex.copy()?;
    Ok(LockCall::CondTake { cond, mutex })
}

/// A second call on a channel.
pub(crate) fn copy_chan_call(alloc: Global, call: &ChanCall) -> Result<Boxed<ChanCall>, NoMemory>
    ensures { IfOk result (λ copy. copy ≡ call.now) }
{
    let copy = chan_call(call)?;
    Boxed::new(alloc, copy)
}

fn chan_call(call: &ChanCall) -> Result<ChanCall, NoMemory>
    ensures { IfOk result (λ copy. copy ≡ call.now) }
{
    match call {
        ChanCall::Pipe => Ok(ChanCall::Pipe),
        ChanCall::Put { chan, bytes } => put(chan, bytes),
        ChanCall::GetLine { chan } => Ok(ChanCall::GetLine { chan: chan.copy()? }),
        ChanCall::Eof { chan } => Ok(ChanCall::Eof { chan: chan.copy()? }),
        ChanCall::Close { chan } => Ok(ChanCall::Close { chan: chan.copy()? }),
        ChanCall::Detach { chan } => Ok(ChanCall::Detach { chan: chan.copy()? }),
        ChanCall::Attach { chan } => Ok(ChanCall::Attach { chan: chan.copy()? }),
        ChanCall::Transfer { id, chan } => transfer(id, chan),
        ChanCall::AwaitMove { chan } => Ok(ChanCall::AwaitMove { chan: chan.copy()? }),
    }
}

fn put(chan: &Text, bytes: &Text) -> Result<ChanCall, NoMemory>
    ensures { IfOk result (λ copy. copy ≡ Put chan.now bytes.now) }
{
    let chan = chan.copy()?;
    let bytes = bytes.copy()?;
    Ok(ChanCall::Put { chan, bytes })
}

fn transfer(id: &Text, chan: &Text) -> Result<ChanCall, NoMemory>
    ensures { IfOk result (λ copy. copy ≡ Transfer id.now chan.now) }
{
    let id = id.copy()?;
    let chan = chan.copy()?;
    Ok(ChanCall::Transfer { id, chan })
}

/// A second call on a pool.
pub(crate) fn copy_pool_call(alloc: Global, call: &PoolCall) -> Result<Boxed<PoolCall>, NoMemory>
    ensures { IfOk result (λ copy. copy ≡ call.now) }
{
    let copy = pool_call(alloc, call)?;
    Boxed::new(alloc, copy)
}

fn pool_call(alloc: Global, call: &PoolCall) -> Result<PoolCall, NoMemory>
    ensures { IfOk result (λ copy. copy ≡ call.now) }
{
    match call {
        PoolCall::Create {
            least,
            most,
            init,
            exit,
        } => create(*least, *most, init, exit),
        PoolCall::Names => Ok(PoolCall::Names),
        PoolCall::Post {
            pool,
            script,
            detached,
        } => post(pool, script, *detached),
        PoolCall::Look { pool, jobs } => look(alloc, pool, jobs),
        PoolCall::Cancel { pool, jobs } => cancel(alloc, pool, jobs),
        PoolCall::Get { pool, job } => get(pool, job),
        PoolCall::Preserve { pool } => Ok(PoolCall::Preserve { pool: pool.copy()? }),
        PoolCall::Release { pool } => Ok(PoolCall::Release { pool: pool.copy()? }),
        PoolCall::Suspend { pool, on } => Ok(PoolCall::Suspend {
            pool: pool.copy()?,
            on: *on,
        }),
        PoolCall::JobTake { pool } => Ok(PoolCall::JobTake { pool: pool.copy()? }),
        PoolCall::JobDone { pool, job, outcome } => job_done(pool, *job, outcome),
    }
}

fn create(least: u32, most: u32, init: &Text, exit: &Text) -> Result<PoolCall, NoMemory>
    ensures { IfOk result (λ copy. copy ≡ Create least most init.now exit.now) }
{
    let init = init.copy()?;
    let exit = exit.copy()?;
    Ok(PoolCall::Create {
        least,
        most,
        init,
        exit,
    })
}

fn post(pool: &Text, script: &Text, detached: bool) -> Result<PoolCall, NoMemory>
    ensures { IfOk result (λ copy. copy ≡ Post pool.now script.now detached) }
{
    let pool = pool.copy()?;
    let script = script.copy()?;
    Ok(PoolCall::Post {
        pool,
        script,
        detached,
    })
}

fn look(alloc: Global, pool: &Text, jobs: &Texts) -> Result<PoolCall, NoMemory>
    ensures { IfOk result (λ copy. copy ≡ Look pool.now jobs.now) }
{
    let pool = pool.copy()?;
    let jobs = Texts::from_copies(alloc, jobs.as_slice())?;
    Ok(PoolCall::Look { pool, jobs })
}

fn cancel(alloc: Global, pool: &Text, jobs: &Texts) -> Result<PoolCall, NoMemory>
    ensures { IfOk result (λ copy. copy ≡ Cancel pool.now jobs.now) }
{
    let pool = pool.copy()?;
    let jobs = Texts::from_copies(alloc, jobs.as_slice())?;
    Ok(PoolCall::Cancel { pool, jobs })
}

fn get(pool: &Text, job: &Text) -> Result<PoolCall, NoMemory>
    ensures { IfOk result (λ copy. copy ≡ Get pool.now job.now) }
{
    let pool = pool.copy()?;
    let job = job.copy()?;
    Ok(PoolCall::Get { pool, job })
}

fn job_done(pool: &Text, job: u64, outcome: &Outcome) -> Result<PoolCall, NoMemory>
    ensures { IfOk result (λ copy. copy ≡ JobDone pool.now job outcome.now) }
{
    let pool = pool.copy()?;
    let outcome = outcome.copy()?;
    Ok(PoolCall::JobDone { pool, job, outcome })
}
