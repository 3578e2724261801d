ghost use Rattle.std.specs.Prelude.{◌≡◌, IfOk, IsTrue, OnOk, option_copied};
ghost use Rattle.std.specs.Map.{values_of};
ghost use Rattle.tt_shared.specs.Ends.{end_event, ends, exit_code, exits, hears, pool_of_row, pools_left, tells_died};
ghost use Rattle.tt_threads.specs.Rows.{is_living, row_of};

use crate::{Applied, Posts, Queues, Shared, VariablePost};
use std::alloc::Global;
use tt_calls::{Event, Reply, Start};
use tt_text::{NoMemory, Text};
use tt_threads::{Row, Threads};

/// The thread whose end is that of the run.
const MAIN: u32 = 1;

impl Shared {
    // The end of a thread.
    pub(crate) fn end(&mut self, thread: u32, code: i64) -> Result<Applied, NoMemory>
        requires lives { IsTrue (is_living self.old.rows thread) }
        ensures state { OnOk result (self.new ≡ (ends self.old thread code).state) }
        ensures gives { IfOk result (λ gives. gives ≡ (ends self.old thread code).gives) }
    {
        tell_died(
            self.alloc,
            &self.posts,
            &self.threads,
            &mut self.queues,
            thread,
        )?;
        self.queues.clear(thread);
        self.posts.end(thread);
        self.end_job(thread)?;
        self.chans.end(thread);
        self.threads.end(thread, code);
        if thread == MAIN {
            self.over = Some(exit_code(code));
        }
        Ok(self.answer(Reply::Go))
    }

    // The end of a worker in its pool.
    fn end_job(&mut self, thread: u32) -> Result<(), NoMemory>
        ensures { OnOk result (self.new ≡ (record self.old { pools = pools_left self.old thread })) }
    {
        let pool = pool_of(self.threads.row(thread));
        self.pools.end(thread, pool)
    }

    // The end of the run, whatever is left.
    pub(crate) fn exit(&mut self, code: i64) -> Applied
        ensures state { self.new ≡ (exits self.old code).state }
        ensures gives { result ≡ (exits self.old code).gives }
    {
        self.over = Some(exit_code(code));
        self.answer(Reply::Go)
    }
}

// The variables of posts that the thread leaves unanswered are set, in the order of the posts.
fn tell_died(
    alloc: Global,
    posts: &Posts,
    threads: &Threads,
    queues: &mut Queues,
    thread: u32,
) -> Result<(), NoMemory>
    ensures { OnOk result (queues.new ≡ tells_died threads.now thread (values_of posts.now.variables) queues.old) }
{
    for post in posts.variables.values() {
        if hears(threads, thread, post) {
            let event = died(alloc, &post.name)?;
            queues.push(post.sender, false, event)?;
        }
    }
    Ok(())
}

// Whether the thread owes the post an answer, and its sender is another thread that has not ended.
fn hears(threads: &Threads, thread: u32, post: &VariablePost) -> bool
    ensures { result ≡ hears threads.now thread post.now }
{
    post.target == thread && post.sender != thread && threads.lives(post.sender)
}

fn died(alloc: Global, name: &Text) -> Result<Event, NoMemory>
    ensures { IfOk result (λ event. event ≡ end_event name.now) }
{
    Ok(Event::SetVar {
        name: name.copy()?,
        value: Text::from_bytes(alloc, b"target thread died")?,
    })
}

// The pool whose worker a thread is.
fn pool_of(row: Option<&Row>) -> Option<&Text>
    ensures { option_copied result ≡ pool_of_row (option_copied row.entry) }
{
    match &row?.start {
        Start::Worker { pool, .. } => Some(pool),
        Start::Script(_) => None,
    }
}

fn exit_code(code: i64) -> u8
    ensures { result ≡ exit_code code }
{
    code.rem_euclid(256) as u8
}
