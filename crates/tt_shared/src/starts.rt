ghost use Rattle.std.specs.Prelude.{◌≡◌, IfOk, OnOk};
ghost use Rattle.tt_calls.specs.declared.request.Request.TheVariants as ask;
ghost use Rattle.tt_shared.specs.Acts.{asks_release, asks_rows, creates, starts, is_unheld, stops_unheld, with_workers};
ghost use Rattle.tt_shared.specs.State.{with_thread};
ghost use Rattle.tt_threads.specs.Requests as threads;
ghost use Rattle.tt_threads.specs.Rows.{new_row, number_made, row_of};

use crate::{Applied, Shared};
use tt_calls::{Event, Reply, Request, Start};
use tt_ids::{IdKind, id_text};
use tt_text::{NoMemory, Text};

impl Shared {
    // A thread more, if there is room, and its number.
    fn make(
        &mut self,
        start: Start,
        joinable: bool,
        preserved: bool,
    ) -> Result<Option<u32>, NoMemory>
        ensures state { OnOk result (self.new ≡ with_thread self.old (new_row start joinable preserved)) }
        ensures number { IfOk result (λ number. number ≡ number_made self.old.rows) }
    {
        let number = self.threads.create(start, joinable, preserved)?;
        if number.is_some() {
            self.queues.add()?;
        }
        Ok(number)
    }

    // A new thread with a script.
    pub(crate) fn create(
        &mut self,
        joinable: bool,
        preserved: bool,
        script: &Text,
    ) -> Result<Applied, NoMemory>
        ensures state { OnOk result (self.new ≡ (creates self.old joinable preserved script.now).state) }
        ensures gives { IfOk result (λ gives. gives ≡ (creates self.old joinable preserved script.now).gives) }
    {
        let start = Start::Script(script.copy()?);
        match self.make(start, joinable, preserved)? {
            Some(number) => {
                let id = id_text(self.alloc, IdKind::Thread, u64::from(number))?;
                let mut gives = self.answer(Reply::Value(id));
                gives.made = 1;
                Ok(gives)
            }
            None => self.refusal(b"too many threads"),
        }
    }

    // So many workers more.
    pub(crate) fn start(&mut self, count: u32, worker: &Option<Start>) -> Result<(), NoMemory>
        ensures { OnOk result (self.new ≡ starts self.old count worker.now) }
    {
        match worker {
            Some(worker) => self.start_workers(count, worker),
            None => Ok(()),
        }
    }

    fn start_workers(&mut self, count: u32, worker: &Start) -> Result<(), NoMemory>
        ensures { OnOk result (self.new ≡ with_workers count worker.now self.old) }
    {
        for _ in 0..count {
            self.make(worker.copy()?, false, false)?;
        }
        Ok(())
    }

    // A request on the table of threads alone.
    pub(crate) fn in_rows(&mut self, thread: u32, request: &Request) -> Result<Applied, NoMemory>
        ensures state { OnOk result (self.new ≡ (asks_rows self.old thread request.now).state) }
        ensures gives { IfOk result (λ gives. gives ≡ (asks_rows self.old thread request.now).gives) }
    {
        let reply = self.threads.apply(thread, request)?;
        Ok(self.answer(reply))
    }

    // One hold less; a thread that nobody holds any more is asked to stop.
    pub(crate) fn release(
        &mut self,
        thread: u32,
        id: &Text,
        request: &Request,
    ) -> Result<Applied, NoMemory>
        ensures state { OnOk result (self.new ≡ (asks_release self.old thread id.now request.now).state) }
        ensures gives { IfOk result (λ gives. gives ≡ (asks_release self.old thread id.now request.now).gives) }
    {
        let number = self.named(thread, id);
        let reply = self.threads.apply(thread, request)?;
        self.stop_unheld(number)?;
        Ok(self.answer(reply))
    }

    // The thread of an id, the empty one being the asker's.
    fn named(&self, thread: u32, id: &Text) -> Option<u32>
        ensures { result ≡ threads.thread_named self.now.rows thread id.now }
    {
        if id.is_empty() {
            return Some(thread);
        }
        self.threads.linked(id.as_bytes())
    }

    fn stop_unheld(&mut self, number: Option<u32>) -> Result<(), NoMemory>
        ensures { OnOk result (self.new ≡ stops_unheld self.old number) }
    {
        match number {
            Some(number) if self.is_unheld(number) => self.queues.push(number, false, Event::Stop),
            _ => Ok(()),
        }
    }

    fn is_unheld(&self, number: u32) -> bool
        ensures { result ≡ is_unheld (row_of self.now.rows number) }
    {
        self.threads.row(number).is_some_and(|row| row.count <= 0)
    }
}
