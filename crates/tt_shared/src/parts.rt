ghost use Rattle.std.specs.Prelude.{◌≡◌, IfOk, OnOk};
ghost use Rattle.tt_shared.specs.Acts.{gives_of, moves, on_arrays, on_channels, on_locks, on_pools, target_of};
ghost use Rattle.tt_shared.specs.State.{reply_of};

use crate::{Applied, Shared};
use std::alloc::Global;
use tt_calls::{ChanCall, Event, LockCall, PoolCall, Reply, Step, TsvCall};
use tt_pools::PoolStep;
use tt_text::{NoMemory, Text};

impl Shared {
    // A call on shared variables.
    pub(crate) fn on_arrays(&mut self, thread: u32, call: &TsvCall) -> Result<Applied, NoMemory>
        ensures state { OnOk result (self.new ≡ (on_arrays self.old thread call.now).state) }
        ensures gives { IfOk result (λ gives. gives ≡ (on_arrays self.old thread call.now).gives) }
    {
        let step = self.arrays.apply(thread, call)?;
        Ok(self.answer(reply_of(self.alloc, step)))
    }

    // A call on locks.
    pub(crate) fn on_locks(&mut self, thread: u32, call: &LockCall) -> Result<Applied, NoMemory>
        ensures state { OnOk result (self.new ≡ (on_locks self.old thread call.now).state) }
        ensures gives { IfOk result (λ gives. gives ≡ (on_locks self.old thread call.now).gives) }
    {
        let step = self.locks.apply(thread, call)?;
        Ok(self.answer(reply_of(self.alloc, step)))
    }

    // A call on pools.
    pub(crate) fn on_pools(&mut self, thread: u32, call: &PoolCall) -> Result<Applied, NoMemory>
        ensures state { OnOk result (self.new ≡ (on_pools self.old thread call.now).state) }
        ensures gives { IfOk result (λ gives. gives ≡ (on_pools self.old thread call.now).gives) }
    {
        let room = self.room();
        let marked = self.is_marked(thread);
        let gives = self.pools.apply(thread, call, room, marked)?;
        let applied = self.give(thread, gives)?;
        Ok(applied)
    }

    // The reply, and the workers; a call that waits serves an event.
    fn give(&mut self, thread: u32, gives: PoolStep) -> Result<Applied, NoMemory>
        ensures state { OnOk result (self.new ≡ (gives_of self.old thread gives).state) }
        ensures gives { IfOk result (λ applied. applied ≡ (gives_of self.old thread gives).gives) }
    {
        let PoolStep {
            step,
            start,
            worker,
        } = gives;
        match step {
            Step::Wait => Ok(self.take(thread)),
            Step::Reply(reply) => {
                let mut applied = self.answer(reply);
                applied.made = start;
                self.start(start, &worker)?;
                Ok(applied)
            }
        }
    }

    // A call on channels.
    pub(crate) fn on_channels(&mut self, thread: u32, call: &ChanCall) -> Result<Applied, NoMemory>
        ensures state { OnOk result (self.new ≡ (on_channels self.old thread call.now).state) }
        ensures gives { IfOk result (λ gives. gives ≡ (on_channels self.old thread call.now).gives) }
    {
        let target = self.target_of(call);
        let step = self.chans.apply(thread, call, target)?;
        let reply = reply_of(self.alloc, step);
        self.move_on(call, target, &reply)?;
        Ok(self.answer(reply))
    }

    // The linked thread that a transfer names.
    fn target_of(&self, call: &ChanCall) -> Option<u32>
        ensures { result ≡ target_of self.now call.now }
    {
        match call {
            ChanCall::Transfer { id, .. } => self.threads.linked(id.as_bytes()),
            _ => None,
        }
    }

    // A channel that is on its way comes by an event of its target.
    fn move_on(
        &mut self,
        call: &ChanCall,
        target: Option<u32>,
        reply: &Reply,
    ) -> Result<(), NoMemory>
        ensures { OnOk result (self.new ≡ moves self.old call.now target reply.now) }
    {
        match (call, target, reply) {
            (ChanCall::Transfer { chan, .. }, Some(target), Reply::Go) => {
                let chan = chan.copy()?;
                self.queues.push(target, false, Event::Moved { chan })
            }
            _ => Ok(()),
        }
    }
}

// The reply; a call that waits has none.
fn reply_of(alloc: Global, step: Step) -> Reply
    ensures { result ≡ reply_of step }
{
    match step {
        Step::Wait => Reply::Refused(Text::new(alloc)),
        Step::Reply(reply) => reply,
    }
}
