//! What is known of the steps so far.
ghost use Rattle.std.specs.Prelude.{◌≡◌, ◌++◌, ◌+◌, ◌<◌, ◌^◌, OnOk};
ghost use Rattle.std.specs.Option.{option_copied, option_to_list};
ghost use Rattle.tt_before.specs.Known.{after_done, after_step, named_by, nothing_known, pool_answered, pool_grown};
ghost use Rattle.tt_before.specs.Known.{pool_of_call, post_made, post_of, post_to, reporter_after, workers_from};
ghost use Rattle.tt_before.specs.Known.{workers_of};
ghost use Rattle.tt_before.specs.Steps.{step};

use crate::touching::is_done;
use std::alloc::Global;
use std::marker::Model;
use tt_calls::{PoolCall, Reply, Request};
use tt_ids::{IdKind, id_number};
use tt_text::{NoMemory, Text};

/// A post that was sent.
#[derive(Clone, Copy, Debug)]
pub struct Post {
    pub number: u64,
    pub sender: u64,
    pub target: u64,
}

/// A thread that was made as a worker of a pool.
#[derive(Debug, Drop)]
pub struct Worker {
    pub thread: u64,
    pub pool: Text,
}

/// What is known of the steps so far.
#[derive(Debug, Drop)]
pub(crate) struct Known {
    alloc: Global,
    // The number of the thread that is made next.
    pub(crate) next: u64,
    pub(crate) posts: Vec<Post>,
    pub(crate) workers: Vec<Worker>,
    // The thread that last named a procedure for errors.
    pub(crate) reporter: Option<u64>,
}

impl Model for Known {
    ghost use Rattle.tt_before.specs.Known.{Knowledge};

    ghost Value = { Knowledge };

    ghost view = { λ known. record {
      next = known.next;
      posts = known.posts.items;
      workers = known.workers.items;
      reporter = known.reporter;
    } };
}

impl Known {
    /// Nothing but the first thread. It takes no memory.
    pub(crate) fn new(alloc: Global) -> Self
        ensures nothing { result ≡ nothing_known }
    {
        Known {
            alloc,
            next: 2,
            posts: Vec::new(alloc),
            workers: Vec::new(alloc),
            reporter: None,
        }
    }

    /// What is known after a step.
    ///
    /// `NoMemory` if memory is refused.
    pub(crate) fn follow(
        &mut self,
        thread: u32,
        request: &Request,
        reply: &Reply,
        made: u32,
    ) -> Result<(), NoMemory>
        ensures followed { OnOk result (self.new ≡ after_step self.old (step thread request.now reply.now made)) }
    {
        if is_done(reply) {
            self.learn(thread, request, reply, made)?;
        }
        Ok(())
    }

    /// What is known after a step that was done, too.
    ///
    /// `NoMemory` if memory is refused.
    fn learn(
        &mut self,
        thread: u32,
        request: &Request,
        reply: &Reply,
        made: u32,
    ) -> Result<(), NoMemory>
        ensures learnt { OnOk result (self.new ≡ after_done self.old (step thread request.now reply.now made)) }
    {
        let thread = u64::from(thread);
        let next = self.next.checked_add(u64::from(made)).ok_or(NoMemory)?;
        self.add_post(post_of(thread, request, reply))?;
        self.add_workers(pool_grown(request, reply), made)?;
        self.next = next;
        self.reporter = reporter_after(thread, request, self.reporter);
        Ok(())
    }

    fn add_post(&mut self, post: Option<Post>) -> Result<(), NoMemory>
        ensures added { OnOk result (self.new ≡ record self.old { posts = self.old.posts ++ option_to_list post }) }
    {
        if let Some(post) = post {
            self.posts.push(post)?;
        }
        Ok(())
    }

    // Workers of a pool, from the number of the next thread on.
    fn add_workers(&mut self, pool: Option<&Text>, made: u32) -> Result<(), NoMemory>
        requires small { self.old.next + made < 2 ^ 64 }
        ensures added { OnOk result (self.new ≡ record self.old {
          workers =
              self.old.workers ++ workers_of (option_copied pool.entry) self.old.next made;
        }) }
    {
        match pool {
            Some(pool) => add_workers(&mut self.workers, pool, self.next, made),
            None => Ok(()),
        }
    }
}

/// Adds so many workers of a pool, from this number on.
fn add_workers(
    workers: &mut Vec<Worker>,
    pool: &Text,
    first: u64,
    count: u32,
) -> Result<(), NoMemory>
    requires { first + count < 2 ^ 64 }
    ensures { OnOk result (workers.new.items ≡ workers.old.items ++ workers_from pool.now first count) }
{
    for more in 0..count {
        workers.push(Worker {
            thread: first + u64::from(more),
            pool: pool.copy()?,
        })?;
    }
    Ok(())
}

/// The post that a step makes (thread(n), thread::send).
fn post_of(thread: u64, request: &Request, reply: &Reply) -> Option<Post>
    ensures { result ≡ post_of thread request.now reply.now }
{
    match request {
        Request::Send { id, .. } => post_made(thread, id, reply),
        _ => None,
    }
}

fn post_made(thread: u64, id: &Text, reply: &Reply) -> Option<Post>
    ensures { result ≡ post_made thread id.now reply.now }
{
    match reply {
        Reply::Posted(number) => post_to(thread, *number, id_number(IdKind::Thread, id.as_bytes())),
        _ => None,
    }
}

fn post_to(sender: u64, number: u64, target: Option<u64>) -> Option<Post>
    ensures { result ≡ post_to sender number target }
{
    match target {
        Some(target) => Some(Post {
            number,
            sender,
            target,
        }),
        None => None,
    }
}

/// The pool whose workers a step makes (tpool(n), tpool::create, tpool::post).
fn pool_grown<'a>(request: &'a Request, reply: &'a Reply) -> Option<&'a Text>
    ensures { option_copied result ≡ pool_grown request.now reply.now }
{
    match request {
        Request::Pool(call) => pool_of_call(call.get(), reply),
        _ => None,
    }
}

fn pool_of_call<'a>(call: &'a PoolCall, reply: &'a Reply) -> Option<&'a Text>
    ensures { option_copied result ≡ pool_of_call call.now reply.now }
{
    match call {
        PoolCall::Create { .. } => pool_answered(reply),
        PoolCall::Post { pool, .. } => Some(pool),
        _ => None,
    }
}

fn pool_answered(reply: &Reply) -> Option<&Text>
    ensures { option_copied result ≡ pool_answered reply.now }
{
    match reply {
        Reply::Value(id) => Some(id),
        _ => None,
    }
}

/// Who gets reports of errors after a step (thread(n), thread::errorproc).
fn reporter_after(thread: u64, request: &Request, before: Option<u64>) -> Option<u64>
    ensures { result ≡ reporter_after thread request.now before }
{
    match request {
        Request::ErrorProc { name } => named_by(thread, name, before),
        _ => before,
    }
}

fn named_by(thread: u64, name: &Option<Text>, before: Option<u64>) -> Option<u64>
    ensures { result ≡ named_by thread name.now before }
{
    match name {
        Some(name) if !name.is_empty() => Some(thread),
        _ => before,
    }
}
