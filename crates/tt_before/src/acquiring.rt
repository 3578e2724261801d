//! What a step acquires.
ghost use Rattle.std.specs.Prelude.{◌≡◌, ◌∷◌, [], IfOk, ◌++◌};
ghost use Rattle.tt_before.specs.Objects.{acquired, acquired_by_array, acquired_by_channel, acquired_by_lock};
ghost use Rattle.tt_before.specs.Objects.{acquired_by_pool, acquires, if_event, target_ends};
ghost use Rattle.tt_before.specs.Steps.{step};
ghost use Rattle.tt_before.specs.declared.object.Object.TheVariants.{Pool, Queue, Queues, Slot};

use crate::Object;
use crate::known::Known;
use crate::objects::{add_target, one, pipe_of, two};
use crate::touching::is_done;
use std::alloc::Global;
use tt_calls::{ChanCall, LockCall, PoolCall, Reply, Request, TsvCall};
use tt_text::{NoMemory, Text};

/// What a step acquires.
///
/// `NoMemory` if memory is refused.
pub(crate) fn acquires(
    alloc: Global,
    known: &Known,
    thread: u32,
    request: &Request,
    reply: &Reply,
) -> Result<Vec<Object>, NoMemory>
    ensures { IfOk result (λ objects. objects.items ≡ acquires known.now (step thread request.now reply.now 0)) }
{
    let thread = u64::from(thread);
    let mut objects = two(alloc, Object::Line(thread), Object::Life(thread))?;
    if is_done(reply) {
        let mut others = acquired(alloc, known, thread, request, reply)?;
        objects.append(&mut others)?;
    }
    Ok(objects)
}

fn acquired(
    alloc: Global,
    known: &Known,
    thread: u64,
    request: &Request,
    reply: &Reply,
) -> Result<Vec<Object>, NoMemory>
    ensures { IfOk result (λ objects. objects.items ≡ acquired known.now thread request.now reply.now) }
{
    match request {
        Request::Take | Request::TakeReady => if_event(alloc, thread, reply),
        Request::Await { n } => awaited(alloc, known, *n),
        Request::AwaitEnd { thread } => one(alloc, Object::End(u64::from(*thread))),
        Request::Tsv(call) => by_array(alloc, call.get()),
        Request::Lock(call) => by_lock(alloc, call.get()),
        Request::Pool(call) => by_pool(alloc, thread, call.get(), reply),
        Request::Chan(call) => by_channel(alloc, call.get()),
        _ => Ok(Vec::new(alloc)),
    }
}

fn if_event(alloc: Global, thread: u64, reply: &Reply) -> Result<Vec<Object>, NoMemory>
    ensures { IfOk result (λ objects. objects.items ≡ if_event reply.now (Queue thread ∷ Queues ∷ [])) }
{
    match reply {
        Reply::Event(_) => two(alloc, Object::Queue(thread), Object::Queues),
        _ => Ok(Vec::new(alloc)),
    }
}

fn awaited(alloc: Global, known: &Known, n: u64) -> Result<Vec<Object>, NoMemory>
    ensures { IfOk result (λ objects. objects.items ≡ Slot n ∷ target_ends known.now n) }
{
    let mut objects = one(alloc, Object::Slot(n))?;
    add_target(&mut objects, known.posts.as_slice(), n)?;
    Ok(objects)
}

fn by_array(alloc: Global, call: &TsvCall) -> Result<Vec<Object>, NoMemory>
    ensures { IfOk result (λ objects. objects.items ≡ acquired_by_array call.now) }
{
    match call {
        TsvCall::Hold { array } => one(alloc, Object::Array(array.copy()?)),
        _ => Ok(Vec::new(alloc)),
    }
}

fn by_lock(alloc: Global, call: &LockCall) -> Result<Vec<Object>, NoMemory>
    ensures { IfOk result (λ objects. objects.items ≡ acquired_by_lock call.now) }
{
    match call {
        LockCall::Lock { id } | LockCall::ReadLock { id } | LockCall::WriteLock { id } => {
            one(alloc, Object::Lock(id.copy()?))
        }
        LockCall::CondTake { cond, mutex } => {
            two(
                alloc,
                Object::Lock(mutex.copy()?),
                Object::Lock(cond.copy()?),
            )
        }
        _ => Ok(Vec::new(alloc)),
    }
}

fn by_pool(
    alloc: Global,
    thread: u64,
    call: &PoolCall,
    reply: &Reply,
) -> Result<Vec<Object>, NoMemory>
    ensures { IfOk result (λ objects. objects.items ≡ acquired_by_pool thread call.now reply.now) }
{
    match call {
        PoolCall::Look { pool, .. } => looked(alloc, thread, pool, reply),
        PoolCall::JobTake { pool } | PoolCall::Get { pool, .. } => {
            one(alloc, Object::Pool(pool.copy()?))
        }
        _ => Ok(Vec::new(alloc)),
    }
}

fn looked(alloc: Global, thread: u64, pool: &Text, reply: &Reply) -> Result<Vec<Object>, NoMemory>
    ensures { IfOk result (λ objects.
        objects.items ≡ Pool pool.now ∷ if_event reply.now (Queue thread ∷ Queues ∷ [])) }
{
    let mut objects = one(alloc, Object::Pool(pool.copy()?))?;
    let mut others = if_event(alloc, thread, reply)?;
    objects.append(&mut others)?;
    Ok(objects)
}

fn by_channel(alloc: Global, call: &ChanCall) -> Result<Vec<Object>, NoMemory>
    ensures { IfOk result (λ objects. objects.items ≡ acquired_by_channel call.now) }
{
    match call {
        ChanCall::GetLine { chan } | ChanCall::Eof { chan } | ChanCall::Attach { chan } => {
            pipe_of(alloc, chan)
        }
        _ => Ok(Vec::new(alloc)),
    }
}
