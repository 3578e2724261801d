//! Lists of objects, and what is known of them.
ghost use Rattle.std.specs.Prelude.{◌≡◌, ◌++◌, ◌∷◌, ◌+◌, ◌<◌, ◌^◌, [], IfOk, OnOk};
ghost use Rattle.std.specs.List.{filter_map};
ghost use Rattle.std.specs.Option.{option_to_list};
ghost use Rattle.tt_before.specs.Objects.{lives_from, own_queue_of, pipe_of, pool_if, queue_of};
ghost use Rattle.tt_before.specs.Objects.{reported_to, sender_if, sender_if_to, target_if};

use crate::Object;
use crate::known::{Post, Worker};
use std::alloc::Global;
use tt_ids::{IdKind, id_number};
use tt_text::{NoMemory, Text};

/// One object.
pub(crate) fn one(alloc: Global, object: Object) -> Result<Vec<Object>, NoMemory>
    ensures { IfOk result (λ objects. objects.items ≡ object ∷ []) }
{
    let mut objects = Vec::new(alloc);
    objects.push(object)?;
    Ok(objects)
}

/// Two objects.
pub(crate) fn two(alloc: Global, object: Object, other: Object) -> Result<Vec<Object>, NoMemory>
    ensures { IfOk result (λ objects. objects.items ≡ object ∷ other ∷ []) }
{
    let mut objects = one(alloc, object)?;
    objects.push(other)?;
    Ok(objects)
}

/// The queue of the thread with this number, if there is one.
pub(crate) fn queue_at(alloc: Global, thread: Option<u64>) -> Result<Vec<Object>, NoMemory>
    ensures { IfOk result (λ objects. objects.items ≡ reported_to thread) }
{
    match thread {
        Some(thread) => one(alloc, Object::Queue(thread)),
        None => Ok(Vec::new(alloc)),
    }
}

/// The queue of the thread with this id.
pub(crate) fn queue_of(alloc: Global, id: &Text) -> Result<Vec<Object>, NoMemory>
    ensures { IfOk result (λ objects. objects.items ≡ queue_of id.now) }
{
    let thread = id_number(IdKind::Thread, id.as_bytes());
    queue_at(alloc, thread)
}

/// The same, the empty id being this thread's own.
pub(crate) fn own_queue_of(alloc: Global, thread: u64, id: &Text) -> Result<Vec<Object>, NoMemory>
    ensures { IfOk result (λ objects. objects.items ≡ own_queue_of thread id.now) }
{
    if id.is_empty() {
        return one(alloc, Object::Queue(thread));
    }
    queue_of(alloc, id)
}

/// The pipe of which a channel is an end.
pub(crate) fn pipe_of(alloc: Global, channel: &Text) -> Result<Vec<Object>, NoMemory>
    ensures { IfOk result (λ objects. objects.items ≡ pipe_of channel.now) }
{
    match id_number(IdKind::Channel, channel.as_bytes()) {
        Some(number) => one(alloc, Object::Pipe(number.div_ceil(2))),
        None => Ok(Vec::new(alloc)),
    }
}

/// The lives of so many threads, from this number on.
pub(crate) fn add_lives(objects: &mut Vec<Object>, first: u64, count: u32) -> Result<(), NoMemory>
    requires { first + count < 2 ^ 64 }
    ensures { OnOk result (objects.new.items ≡ objects.old.items ++ lives_from first count) }
{
    for more in 0..count {
        objects.push(Object::Life(first + u64::from(more)))?;
    }
    Ok(())
}

/// Puts an object last, if there is one.
fn add_some(objects: &mut Vec<Object>, object: Option<Object>) -> Result<(), NoMemory>
    ensures { OnOk result (objects.new.items ≡ objects.old.items ++ option_to_list object) }
{
    if let Some(object) = object {
        objects.push(object)?;
    }
    Ok(())
}

/// The queue of the sender of the post with this number.
pub(crate) fn add_sender(
    objects: &mut Vec<Object>,
    posts: &[Post],
    number: u64,
) -> Result<(), NoMemory>
    ensures { OnOk result (objects.new.items ≡ objects.old.items ++ filter_map (sender_if number) posts.now) }
{
    for post in posts {
        add_some(objects, sender_if(post, number))?;
    }
    Ok(())
}

fn sender_if(post: &Post, number: u64) -> Option<Object>
    ensures { result ≡ sender_if number post.now }
{
    (post.number == number).then_some(Object::Queue(post.sender))
}

/// The end of the target of the post with this number.
pub(crate) fn add_target(
    objects: &mut Vec<Object>,
    posts: &[Post],
    number: u64,
) -> Result<(), NoMemory>
    ensures { OnOk result (objects.new.items ≡ objects.old.items ++ filter_map (target_if number) posts.now) }
{
    for post in posts {
        add_some(objects, target_if(post, number))?;
    }
    Ok(())
}

fn target_if(post: &Post, number: u64) -> Option<Object>
    ensures { result ≡ target_if number post.now }
{
    (post.number == number).then_some(Object::End(post.target))
}

/// The queues of all that sent posts to a thread.
pub(crate) fn add_senders_to(
    objects: &mut Vec<Object>,
    posts: &[Post],
    thread: u64,
) -> Result<(), NoMemory>
    ensures { OnOk result (objects.new.items ≡ objects.old.items ++ filter_map (sender_if_to thread) posts.now) }
{
    for post in posts {
        add_some(objects, sender_if_to(post, thread))?;
    }
    Ok(())
}

fn sender_if_to(post: &Post, thread: u64) -> Option<Object>
    ensures { result ≡ sender_if_to thread post.now }
{
    (post.target == thread).then_some(Object::Queue(post.sender))
}

/// The pool of a worker.
pub(crate) fn add_pool(
    objects: &mut Vec<Object>,
    workers: &[Worker],
    thread: u64,
) -> Result<(), NoMemory>
    ensures { OnOk result (objects.new.items ≡ objects.old.items ++ filter_map (pool_if thread) workers.now) }
{
    for worker in workers {
        add_some(objects, pool_if(worker, thread)?)?;
    }
    Ok(())
}

fn pool_if(worker: &Worker, thread: u64) -> Result<Option<Object>, NoMemory>
    ensures { IfOk result (λ object. object ≡ pool_if thread worker.now) }
{
    if worker.thread != thread {
        return Ok(None);
    }
    Ok(Some(Object::Pool(worker.pool.copy()?)))
}
