ghost use Rattle.std.specs.Prelude.{◌≡◌, IfOk, OnOk};
ghost use Rattle.tt_shared.specs.Mail.{is_answered};
ghost use Rattle.tt_shared.specs.Sends.{broadcasts, is_asked, tells_other};
ghost use Rattle.tt_shared.specs.inside.Sending.{sends, sends_linked, sends_to};
ghost use Rattle.tt_shared.specs.State.{answer, no_thread};
ghost use Rattle.tt_calls.specs.declared.reply.Reply.TheVariants.{Refused};

use crate::{Applied, Shared};
use tt_calls::{Event, Mode, Reply};
use tt_text::{NoMemory, Text};

/// A script that is sent (thread(n), thread::send).
#[derive(Drop)]
pub(crate) struct Sent<'a> {
    pub(crate) script: &'a Text,
    pub(crate) mode: Mode,
    pub(crate) variable: &'a Option<Text>,
    /// Whether it goes before all others.
    pub(crate) head: bool,
}

impl Shared {
    // A script goes to the thread of an id.
    pub(crate) fn send(&mut self, thread: u32, id: &Text, sent: &Sent) -> Result<Applied, NoMemory>
        ensures state { OnOk result (self.new ≡ (sends self.old thread id.now sent.now).state) }
        ensures gives { IfOk result (λ gives. gives ≡ (sends self.old thread id.now sent.now).gives) }
    {
        if !sent.is_asked() {
            return Ok(self.not_asked());
        }
        match self.threads.linked(id.as_bytes()) {
            Some(target) => self.send_linked(thread, target, sent),
            None => self.no_thread(id),
        }
    }

    // A script goes to a linked thread.
    fn send_linked(&mut self, thread: u32, target: u32, sent: &Sent) -> Result<Applied, NoMemory>
        ensures state { OnOk result (self.new ≡ (sends_linked self.old thread target sent.now).state) }
        ensures gives { IfOk result (λ gives. gives ≡ (sends_linked self.old thread target sent.now).gives) }
    {
        match sent.mode {
            Mode::Waits if target == thread => Ok(self.not_asked()),
            _ => self.send_to(thread, target, sent),
        }
    }

    fn send_to(&mut self, thread: u32, target: u32, sent: &Sent) -> Result<Applied, NoMemory>
        ensures state { OnOk result (self.new ≡ (sends_to self.old thread target sent.now).state) }
        ensures gives { IfOk result (λ gives. gives ≡ (sends_to self.old thread target sent.now).gives) }
    {
        let n = self.posts.next();
        let event = Event::Script {
            n,
            script: sent.script.copy()?,
            answer: sent.is_answered(),
            plain: false,
        };
        let variable = copy_name(sent.variable)?;
        self.posts.post(thread, target, sent.mode, variable)?;
        self.queues.push(target, sent.head, event)?;
        Ok(self.answer(Reply::Posted(n)))
    }

    // No thread has this id.
    pub(crate) fn no_thread(&self, id: &Text) -> Result<Applied, NoMemory>
        ensures { IfOk result (λ gives. gives ≡ answer self.now (Refused (no_thread id.now))) }
    {
        let mut message = Text::from_bytes(self.alloc, b"thread \"")?;
        message.push_bytes(id.as_bytes())?;
        message.push_bytes(b"\" does not exist")?;
        Ok(self.answer(Reply::Refused(message)))
    }

    // A script goes to each linked thread but this one.
    pub(crate) fn broadcast(&mut self, thread: u32, script: &Text) -> Result<Applied, NoMemory>
        ensures state { OnOk result (self.new ≡ (broadcasts self.old thread script.now).state) }
        ensures gives { IfOk result (λ gives. gives ≡ (broadcasts self.old thread script.now).gives) }
    {
        for place in 0..self.threads.thread_count() {
            self.tell_other(thread, place + 1, script)?;
        }
        Ok(self.answer(Reply::Go))
    }

    // It goes to this thread, if it is another one and linked.
    fn tell_other(&mut self, thread: u32, number: u32, script: &Text) -> Result<(), NoMemory>
        ensures { OnOk result (self.new ≡ tells_other thread number script.now self.old) }
    {
        if number != thread && self.is_linked(number) {
            self.tell(number, script.copy()?, false)?;
        }
        Ok(())
    }
}

impl Sent<'_> {
    // Whether a command asks it: one that is waited for names no variable.
    fn is_asked(&self) -> bool
        ensures { result ≡ is_asked self.now.mode self.now.variable.now }
    {
        match self.mode {
            Mode::Waits => self.variable.is_none(),
            Mode::Later => true,
        }
    }

    // Whether somebody asks for the answer.
    fn is_answered(&self) -> bool
        ensures { result ≡ is_answered self.now.mode self.now.variable.now }
    {
        match self.mode {
            Mode::Waits => true,
            Mode::Later => self.variable.is_some(),
        }
    }
}

fn copy_name(name: &Option<Text>) -> Result<Option<Text>, NoMemory>
    ensures { IfOk result (λ copy. copy ≡ name.now) }
{
    match name {
        Some(name) => Ok(Some(name.copy()?)),
        None => Ok(None),
    }
}
