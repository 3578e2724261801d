ghost use Rattle.std.specs.Prelude.{◌≡◌, IsTrue};
ghost use Rattle.tt_shared.specs.Enabled.{can_pool, can_send, enabled, is_below_mark, is_look, is_own_waiting};
ghost use Rattle.tt_shared.specs.Enabled.{takes_more};
ghost use Rattle.tt_shared.specs.Mail.{scripts_of};
ghost use Rattle.tt_slots.specs.Waiting.{slot_of};
ghost use Rattle.tt_threads.specs.Rows.{is_living, row_of};

use crate::Shared;
use tt_calls::{Mode, PoolCall, Request};

impl Shared {
    /// Whether a request of a thread that lives can be answered now. It takes no memory (thread(n), tsv(n), tpool(n),
    /// chan(n)).
    pub fn enabled(&self, thread: u32, request: &Request) -> bool
        requires lives { IsTrue (is_living self.now.rows thread) }
        ensures enabled { result ≡ enabled self.now thread request.now }
    {
        match request {
            Request::AwaitEnd { thread } => !self.lives(*thread),
            Request::Send { id, mode, .. } => {
                self.can_send(thread, *mode, self.threads.linked(id.as_bytes()))
            }
            Request::Await { n } => !self.waits_for_answer(thread, *n),
            Request::Take => self.queues.has_event(thread),
            Request::Tsv(call) => !self.arrays.waits(thread, call.get()),
            Request::Lock(call) => !self.locks.waits(thread, call.get()),
            Request::Pool(call) => self.can_pool(thread, call.get()),
            Request::Chan(call) => !self.chans.waits(thread, call.get()),
            _ => true,
        }
    }

    // A send that isn't waited for waits at the event mark of another thread.
    fn can_send(&self, thread: u32, mode: Mode, target: Option<u32>) -> bool
        ensures { result ≡ can_send self.now thread mode target }
    {
        match (mode, target) {
            (Mode::Later, Some(target)) => self.takes_more(thread, target),
            _ => true,
        }
    }

    fn takes_more(&self, thread: u32, target: u32) -> bool
        ensures { result ≡ takes_more self.now thread target }
    {
        target == thread || self.is_below_mark(target)
    }

    // Whether the event mark of a thread is above the scripts in its queue, or 0.
    fn is_below_mark(&self, target: u32) -> bool
        ensures { result ≡ is_below_mark (scripts_of self.now.queues target) (row_of self.now.rows target) }
    {
        let scripts = self.queues.scripts(target);
        match self.threads.row(target) {
            Some(row) => row.eventmark == 0 || scripts < row.eventmark,
            None => true,
        }
    }

    // Whether the thread's own slot waits.
    fn waits_for_answer(&self, thread: u32, n: u64) -> bool
        ensures { result ≡ is_own_waiting thread (slot_of self.now.posts.slots n) }
    {
        self.posts
            .slot(n)
            .is_some_and(|slot| slot.sender == thread && slot.is_waiting())
    }

    fn can_pool(&self, thread: u32, call: &PoolCall) -> bool
        ensures { result ≡ can_pool self.now thread call.now }
    {
        !self.pools.waits(call, self.is_marked(thread))
            || is_look(call) && self.queues.has_event(thread)
    }
}

fn is_look(call: &PoolCall) -> bool
    ensures { result ≡ is_look call.now }
{
    matches!(call, PoolCall::Look { .. })
}
