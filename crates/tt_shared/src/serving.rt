ghost use Rattle.std.specs.Prelude.{◌≡◌, IfOk, OnOk};
ghost use Rattle.tt_shared.specs.Mail.{variable_post};
ghost use Rattle.tt_shared.specs.Sends.{awaits, come, delivers, delivers_to, is_due, is_failed, is_target};
ghost use Rattle.tt_shared.specs.Sends.{reply_to_server};
ghost use Rattle.tt_shared.specs.Sends.{sets, slot_reply, takes};
ghost use Rattle.tt_shared.specs.State.{answer};

use crate::{Applied, Shared, VariablePost};
use tt_calls::{Code, Event, Outcome, Reply};
use tt_slots::{Slot, SlotState};
use tt_text::{NoMemory, Text};

impl Shared {
    // The answer of a post, for its sender.
    pub(crate) fn await_answer(&mut self, thread: u32, n: u64) -> Applied
        ensures state { self.new ≡ (awaits self.old thread n).state }
        ensures gives { result ≡ (awaits self.old thread n).gives }
    {
        match self.posts.slot(n) {
            Some(slot) if slot.sender == thread => {
                let state = self.posts.take(n);
                self.slot_answer(state)
            }
            _ => self.not_asked(),
        }
    }

    // What a sender is answered by its slot.
    fn slot_answer(&self, state: SlotState) -> Applied
        ensures { result ≡ answer self.now (slot_reply state) }
    {
        match state {
            SlotState::Waiting => self.not_asked(),
            SlotState::Result(outcome) => self.answer(Reply::Answer(outcome)),
            SlotState::Died => self.answer(Reply::Died),
        }
    }

    // What a script came to goes to the sender.
    pub(crate) fn deliver(
        &mut self,
        thread: u32,
        n: u64,
        outcome: &Outcome,
    ) -> Result<Applied, NoMemory>
        ensures state { OnOk result (self.new ≡ (delivers self.old thread n outcome.now).state) }
        ensures gives { IfOk result (λ gives. gives ≡ (delivers self.old thread n outcome.now).gives) }
    {
        match self.posts.slot(n) {
            Some(slot) if is_due(slot, thread) => {
                self.posts.fill(n, outcome.copy()?);
                Ok(self.served(thread, outcome))
            }
            Some(_) => Ok(self.not_asked()),
            None => self.deliver_value(thread, n, outcome),
        }
    }

    // It goes to the sender's variable.
    fn deliver_value(&mut self, thread: u32, n: u64, outcome: &Outcome) -> Result<Applied, NoMemory>
        ensures state { OnOk result (self.new ≡ (delivers_to self.old thread n outcome.now).state) }
        ensures gives { IfOk result (λ gives. gives ≡ (delivers_to self.old thread n outcome.now).gives) }
    {
        if !self.owes_value(thread, n) {
            return Ok(self.not_asked());
        }
        if let Some(post) = self.posts.take_variable(n) {
            self.set(post, outcome.value.to_text(self.alloc)?)?;
        }
        Ok(self.served(thread, outcome))
    }

    // Whether the thread owes that post's variable a value.
    fn owes_value(&self, thread: u32, n: u64) -> bool
        ensures { result ≡ is_target thread (variable_post self.now.posts n) }
    {
        self.posts
            .variable(n)
            .is_some_and(|post| post.target == thread)
    }

    // The variable of a post gets a value, if the sender has not ended.
    fn set(&mut self, post: VariablePost, value: Text) -> Result<(), NoMemory>
        ensures { OnOk result (self.new ≡ sets self.old post value) }
    {
        if !self.lives(post.sender) {
            return Ok(());
        }
        let event = Event::SetVar {
            name: post.name,
            value,
        };
        self.queues.push(post.sender, false, event)
    }

    // An outcome was handed over.
    fn served(&self, thread: u32, outcome: &Outcome) -> Applied
        ensures { result ≡ answer self.now (reply_to_server self.now thread outcome.now) }
    {
        let stops = is_failed(outcome.code) && self.unwinds(thread);
        self.answer(Reply::Served(stops))
    }

    // A thread's first event; a channel that has come is its own.
    pub(crate) fn take(&mut self, thread: u32) -> Applied
        ensures state { self.new ≡ (takes self.old thread).state }
        ensures gives { result ≡ (takes self.old thread).gives }
    {
        match self.queues.take(thread) {
            Some(event) => {
                self.come(thread, &event);
                self.answer(Reply::Event(event))
            }
            None => self.answer(Reply::NoEvent),
        }
    }

    fn come(&mut self, thread: u32, event: &Event)
        ensures { self.new ≡ come self.old thread event.now }
    {
        if let Event::Moved { chan } = event {
            self.chans.give(thread, chan);
        }
    }
}

// Whether a slot waits for this thread.
fn is_due(slot: &Slot, thread: u32) -> bool
    ensures { result ≡ is_due thread slot.now }
{
    slot.target == thread && slot.is_waiting()
}

fn is_failed(code: Code) -> bool
    ensures { result ≡ is_failed code }
{
    matches!(code, Code::Failed)
}
