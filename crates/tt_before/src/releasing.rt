//! What a step releases.
ghost use Rattle.std.specs.Prelude.{◌≡◌, ◌∷◌, ◌<◌, ◌+◌, ◌^◌, IfOk, OnOk, ◌++◌};
ghost use Rattle.tt_before.specs.Objects.{if_posted, queue_of, released, released_by_array, released_by_channel};
ghost use Rattle.tt_before.specs.Objects.{queues_that_sent_to, released_by_lock, released_by_pool, releases};
ghost use Rattle.tt_before.specs.Objects.{pools_of, sender_queues};
ghost use Rattle.tt_before.specs.Steps.{step};
ghost use Rattle.tt_before.specs.declared.object.Object.TheVariants.{End, Slot};

use crate::Object;
use crate::known::Known;
use crate::objects::{
    add_lives, add_pool, add_sender, add_senders_to, one, own_queue_of, pipe_of, queue_at, queue_of,
};
use crate::touching::is_done;
use std::alloc::Global;
use tt_calls::{ChanCall, LockCall, PoolCall, Reply, Request, TsvCall};
use tt_text::{NoMemory, Text};

/// What a step releases.
///
/// `NoMemory` if memory is refused.
pub(crate) fn releases(
    alloc: Global,
    known: &Known,
    thread: u32,
    request: &Request,
    reply: &Reply,
    made: u32,
) -> Result<Vec<Object>, NoMemory>
    ensures { IfOk result (λ objects. objects.items ≡ releases known.now (step thread request.now reply.now made)) }
{
    let thread = u64::from(thread);
    let mut objects = one(alloc, Object::Line(thread))?;
    if is_done(reply) {
        known.next.checked_add(u64::from(made)).ok_or(NoMemory)?;
        add_lives(&mut objects, known.next, made)?;
        let mut others = released(alloc, known, thread, request, reply)?;
        objects.append(&mut others)?;
    }
    Ok(objects)
}

fn released(
    alloc: Global,
    known: &Known,
    thread: u64,
    request: &Request,
    reply: &Reply,
) -> Result<Vec<Object>, NoMemory>
    ensures { IfOk result (λ objects. objects.items ≡ released known.now thread request.now reply.now) }
{
    match request {
        Request::Send { id, .. } => if_posted(alloc, reply, id),
        Request::Release { id } => own_queue_of(alloc, thread, id),
        Request::Broadcast { .. } => one(alloc, Object::Queues),
        Request::Report { .. } => queue_at(alloc, known.reporter),
        Request::Deliver { n, .. } => delivered(alloc, known, *n),
        Request::End { .. } => ended(alloc, known, thread),
        Request::Tsv(call) => by_array(alloc, call.get()),
        Request::Lock(call) => by_lock(alloc, call.get()),
        Request::Pool(call) => by_pool(alloc, call.get()),
        Request::Chan(call) => by_channel(alloc, call.get()),
        _ => Ok(Vec::new(alloc)),
    }
}

fn if_posted(alloc: Global, reply: &Reply, id: &Text) -> Result<Vec<Object>, NoMemory>
    ensures { IfOk result (λ objects. objects.items ≡ if_posted reply.now (queue_of id.now)) }
{
    match reply {
        Reply::Posted(_) => queue_of(alloc, id),
        _ => Ok(Vec::new(alloc)),
    }
}

fn delivered(alloc: Global, known: &Known, n: u64) -> Result<Vec<Object>, NoMemory>
    ensures { IfOk result (λ objects. objects.items ≡ Slot n ∷ sender_queues known.now n) }
{
    let mut objects = one(alloc, Object::Slot(n))?;
    add_sender(&mut objects, known.posts.as_slice(), n)?;
    Ok(objects)
}

fn ended(alloc: Global, known: &Known, thread: u64) -> Result<Vec<Object>, NoMemory>
    ensures { IfOk result (λ objects.
        objects.items ≡ End thread ∷ (queues_that_sent_to known.now thread ++ pools_of known.now thread)) }
{
    let mut objects = one(alloc, Object::End(thread))?;
    add_senders_to(&mut objects, known.posts.as_slice(), thread)?;
    add_pool(&mut objects, known.workers.as_slice(), thread)?;
    Ok(objects)
}

fn by_array(alloc: Global, call: &TsvCall) -> Result<Vec<Object>, NoMemory>
    ensures { IfOk result (λ objects. objects.items ≡ released_by_array call.now) }
{
    match call {
        TsvCall::Unhold { array } => one(alloc, Object::Array(array.copy()?)),
        _ => Ok(Vec::new(alloc)),
    }
}

fn by_lock(alloc: Global, call: &LockCall) -> Result<Vec<Object>, NoMemory>
    ensures { IfOk result (λ objects. objects.items ≡ released_by_lock call.now) }
{
    match call {
        LockCall::Unlock { id, .. } | LockCall::Notify { id } => one(
            alloc,
            Object::Lock(id.copy()?),
        ),
        LockCall::CondWait { mutex, .. } => one(alloc, Object::Lock(mutex.copy()?)),
        _ => Ok(Vec::new(alloc)),
    }
}

fn by_pool(alloc: Global, call: &PoolCall) -> Result<Vec<Object>, NoMemory>
    ensures { IfOk result (λ objects. objects.items ≡ released_by_pool call.now) }
{
    match call {
        PoolCall::Post { pool, .. } | PoolCall::JobDone { pool, .. } => {
            one(alloc, Object::Pool(pool.copy()?))
        }
        _ => Ok(Vec::new(alloc)),
    }
}

fn by_channel(alloc: Global, call: &ChanCall) -> Result<Vec<Object>, NoMemory>
    ensures { IfOk result (λ objects. objects.items ≡ released_by_channel call.now) }
{
    match call {
        ChanCall::Put { chan, .. } | ChanCall::Close { chan } | ChanCall::Detach { chan } => {
            pipe_of(alloc, chan)
        }
        ChanCall::Transfer { id, .. } => queue_of(alloc, id),
        _ => Ok(Vec::new(alloc)),
    }
}
