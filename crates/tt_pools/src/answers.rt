ghost use Rattle.std.specs.Prelude.{◌≡◌, IfOk, OnOk, negsuc, pos};
ghost use Rattle.std.specs.Option.{option_copied};
ghost use Rattle.tt_calls.specs.declared.reply.Reply.TheVariants.{Refused, Value};
ghost use Rattle.tt_lists.specs.Spelling.{list_of};
ghost use Rattle.tt_pools.specs.Calls.{act, act_or_wait, after_cancelling, counts, creates, ends_in, in_pool};
ghost use Rattle.tt_pools.specs.Calls.{is_unheld};
ghost use Rattle.tt_pools.specs.Calls.{looks, missing, posts_in, releases, replies, suspends, table_after_end};
ghost use Rattle.tt_pools.specs.Calls.{takes_from, takes_outcome};
ghost use Rattle.tt_pools.specs.Pools.{pool_ids, pool_of, without_pool};

use crate::calls::Hold;
use crate::telling::{looked, missing, refused};
use crate::{Pool, PoolStep, Pools};
use std::alloc::Global;
use tt_calls::{Outcome, PoolCall, Reply};
use tt_ids::{IdKind, id_number, id_text, number_after};
use tt_lists::join_list;
use tt_text::{NoMemory, Text, Texts};

/// The most workers that a pool may have.
const MOST_WORKERS: u32 = 900;

impl Pools {
    /// What a call of a thread on pools does, its reply, and the workers that are to be made; `Wait` exactly if it
    /// has to wait, and then nothing is done. `room` is how many threads may still be made, `marked` whether the
    /// thread is to stop (tpool(n)).
    ///
    /// `NoMemory` if memory for a pool, a job or the reply is refused.
    pub fn apply(
        &mut self,
        thread: u32,
        call: &PoolCall,
        room: u32,
        marked: bool,
    ) -> Result<PoolStep, NoMemory>
        ensures table { OnOk result (self.new ≡ (act_or_wait self.old thread room marked call.now).table) }
        ensures gives { IfOk result (λ gives. gives ≡ (act_or_wait self.old thread room marked call.now).gives) }
    {
        if self.waits(call, marked) {
            return Ok(PoolStep::waiting());
        }
        self.act(thread, call, room, marked)
    }

    fn act(
        &mut self,
        thread: u32,
        call: &PoolCall,
        room: u32,
        marked: bool,
    ) -> Result<PoolStep, NoMemory>
        ensures table { OnOk result (self.new ≡ (act self.old thread room marked call.now).table) }
        ensures gives { IfOk result (λ gives. gives ≡ (act self.old thread room marked call.now).gives) }
    {
        match call {
            PoolCall::Create {
                least,
                most,
                init,
                exit,
            } => self.create(*least, *most, init, exit, room),
            PoolCall::Names => self.names(),
            PoolCall::Post {
                pool,
                script,
                detached,
            } => self.post(pool, script, *detached, room),
            PoolCall::Look { pool, jobs } => self.look(pool, jobs.as_slice()),
            PoolCall::Cancel { pool, jobs } => self.cancel(pool, jobs.as_slice()),
            PoolCall::Get { pool, job } => self.take_outcome(pool, job),
            PoolCall::Preserve { pool } => self.preserve(pool),
            PoolCall::Release { pool } => self.release(pool),
            PoolCall::Suspend { pool, on } => self.suspend(pool, *on),
            PoolCall::JobTake { pool } => self.take_job(thread, pool, marked),
            PoolCall::JobDone { pool, job, outcome } => {
                let outcome = outcome.copy()?;
                self.end_job(thread, pool, *job, outcome)
            }
        }
    }

    // A pool with its least workers, if there is room for them.
    fn create(
        &mut self,
        least: u32,
        most: u32,
        init: &Text,
        exit: &Text,
        room: u32,
    ) -> Result<PoolStep, NoMemory>
        ensures table { OnOk result (self.new ≡ (creates self.old least most init.now exit.now room).table) }
        ensures gives { IfOk result (λ gives. gives ≡ (creates self.old least most init.now exit.now room).gives) }
    {
        if least > most || most == 0 || most > MOST_WORKERS {
            return Ok(PoolStep::reply(Reply::Refused(Text::new(self.alloc))));
        }
        if least > room {
            let reply = refused(self.alloc, b"too many threads")?;
            return Ok(PoolStep::reply(reply));
        }
        let id = id_text(self.alloc, IdKind::Pool, self.next)?;
        let pool = Pool::new(self.alloc, most, least, init.copy()?, exit.copy()?);
        let gives = pool.workers_made(&id, least, Reply::Value(id.copy()?))?;
        let next = number_after(self.next)?;
        self.pools.insert(self.next, pool)?;
        self.next = next;
        Ok(gives)
    }

    // A job more, and maybe a worker.
    fn post(
        &mut self,
        id: &Text,
        script: &Text,
        detached: bool,
        room: u32,
    ) -> Result<PoolStep, NoMemory>
        ensures table { OnOk result (self.new ≡ (posts_in self.old id.now script.now detached room).table) }
        ensures gives { IfOk result (λ gives. gives ≡ (posts_in self.old id.now script.now detached room).gives) }
    {
        let alloc = self.alloc;
        let Some(number) = id_number(IdKind::Pool, id.as_bytes()) else {
            return not_found(alloc, id);
        };
        match self.pools.get_mut(&number) {
            Some(pool) => pool.post(alloc, id, script, detached, room),
            None => not_found(alloc, id),
        }
    }

    // The listed jobs that are done, and those that are pending.
    fn look(&self, id: &Text, jobs: &[Text]) -> Result<PoolStep, NoMemory>
        ensures gives { IfOk result (λ gives. gives ≡ (looks self.now id.now jobs.now).gives) }
    {
        let Some(pool) = self.find(id) else {
            return not_found(self.alloc, id);
        };
        let reply = looked(self.alloc, &pool.jobs, jobs)?;
        Ok(PoolStep::reply(reply))
    }

    // The listed jobs that no worker has begun are cancelled.
    fn cancel(&mut self, id: &Text, jobs: &[Text]) -> Result<PoolStep, NoMemory>
        ensures table { OnOk result (self.new ≡ (in_pool (after_cancelling jobs.now) self.old id.now).table) }
        ensures gives { IfOk result (λ gives. gives ≡ (in_pool (after_cancelling jobs.now) self.old id.now).gives) }
    {
        let alloc = self.alloc;
        let Some(number) = id_number(IdKind::Pool, id.as_bytes()) else {
            return not_found(alloc, id);
        };
        match self.pools.get_mut(&number) {
            Some(pool) => pool.cancel(alloc, jobs),
            None => not_found(alloc, id),
        }
    }

    // What a job came to, once.
    fn take_outcome(&mut self, id: &Text, job: &Text) -> Result<PoolStep, NoMemory>
        ensures table { OnOk result (self.new ≡ (in_pool (takes_outcome job.now) self.old id.now).table) }
        ensures gives { IfOk result (λ gives. gives ≡ (in_pool (takes_outcome job.now) self.old id.now).gives) }
    {
        let alloc = self.alloc;
        let Some(number) = id_number(IdKind::Pool, id.as_bytes()) else {
            return not_found(alloc, id);
        };
        match self.pools.get_mut(&number) {
            Some(pool) => pool.take_outcome(alloc, job),
            None => not_found(alloc, id),
        }
    }

    // One hold more.
    fn preserve(&mut self, id: &Text) -> Result<PoolStep, NoMemory>
        ensures table { OnOk result (self.new ≡ (in_pool (counts (pos 1)) self.old id.now).table) }
        ensures gives { IfOk result (λ gives. gives ≡ (in_pool (counts (pos 1)) self.old id.now).gives) }
    {
        let alloc = self.alloc;
        let Some(number) = id_number(IdKind::Pool, id.as_bytes()) else {
            return not_found(alloc, id);
        };
        match self.pools.get_mut(&number) {
            Some(pool) => pool.count(alloc, Hold::Taken),
            None => not_found(alloc, id),
        }
    }

    // One hold less: a pool that nobody holds any more is closed.
    fn release(&mut self, id: &Text) -> Result<PoolStep, NoMemory>
        ensures table { OnOk result (self.new ≡ (releases self.old id.now).table) }
        ensures gives { IfOk result (λ gives. gives ≡ (releases self.old id.now).gives) }
    {
        let gives = self.give_up(id)?;
        if self.is_unheld(id) {
            self.close(id);
        }
        Ok(gives)
    }

    fn is_unheld(&self, id: &Text) -> bool
        ensures { result ≡ is_unheld (pool_of self.now id.now) }
    {
        self.find(id).is_some_and(|pool| pool.count <= 0)
    }

    fn close(&mut self, id: &Text)
        ensures { self.new ≡ without_pool self.old id.now }
    {
        if let Some(number) = id_number(IdKind::Pool, id.as_bytes()) {
            self.pools.remove(&number);
        }
    }

    fn give_up(&mut self, id: &Text) -> Result<PoolStep, NoMemory>
        ensures table { OnOk result (self.new ≡ (in_pool (counts (negsuc 0)) self.old id.now).table) }
        ensures gives { IfOk result (λ gives. gives ≡ (in_pool (counts (negsuc 0)) self.old id.now).gives) }
    {
        let alloc = self.alloc;
        let Some(number) = id_number(IdKind::Pool, id.as_bytes()) else {
            return not_found(alloc, id);
        };
        match self.pools.get_mut(&number) {
            Some(pool) => pool.count(alloc, Hold::GivenUp),
            None => not_found(alloc, id),
        }
    }

    // A worker's next job.
    fn take_job(&mut self, worker: u32, id: &Text, marked: bool) -> Result<PoolStep, NoMemory>
        ensures table { OnOk result (self.new ≡ (takes_from self.old worker marked id.now).table) }
        ensures gives { IfOk result (λ gives. gives ≡ (takes_from self.old worker marked id.now).gives) }
    {
        if marked {
            return Ok(PoolStep::reply(Reply::JobStop));
        }
        let Some(number) = id_number(IdKind::Pool, id.as_bytes()) else {
            return Ok(PoolStep::reply(Reply::JobStop));
        };
        match self.pools.get_mut(&number) {
            Some(pool) => pool.begin_job(worker),
            None => Ok(PoolStep::reply(Reply::JobStop)),
        }
    }

    // What a worker's job came to.
    fn end_job(
        &mut self,
        worker: u32,
        id: &Text,
        job: u64,
        outcome: Outcome,
    ) -> Result<PoolStep, NoMemory>
        ensures table { OnOk result (self.new ≡ (ends_in self.old worker id.now job outcome).table) }
        ensures gives { IfOk result (λ gives. gives ≡ (ends_in self.old worker id.now job outcome).gives) }
    {
        let alloc = self.alloc;
        let Some(number) = id_number(IdKind::Pool, id.as_bytes()) else {
            return Ok(PoolStep::reply(Reply::Go));
        };
        match self.pools.get_mut(&number) {
            Some(pool) => pool.end_job(alloc, worker, job, outcome),
            None => Ok(PoolStep::reply(Reply::Go)),
        }
    }

    /// The end of a thread: if it was a worker of a pool that is open, that has one worker less, and the job that it
    /// has begun has failed. `worker_of` is the id of that pool, and `None` for any other thread.
    ///
    /// `NoMemory` if memory for the failure is refused.
    pub fn end(&mut self, thread: u32, worker_of: Option<&Text>) -> Result<(), NoMemory>
        ensures ended { OnOk result (self.new ≡ table_after_end self.old thread (option_copied worker_of.entry)) }
    {
        let alloc = self.alloc;
        let Some(id) = worker_of else {
            return Ok(());
        };
        let Some(number) = id_number(IdKind::Pool, id.as_bytes()) else {
            return Ok(());
        };
        match self.pools.get_mut(&number) {
            Some(pool) => pool.lose(alloc, thread),
            None => Ok(()),
        }
    }

    // The ids of the open pools.
    fn names(&self) -> Result<PoolStep, NoMemory>
        ensures { IfOk result (λ gives. gives ≡ replies (Value (list_of (pool_ids self.now)))) }
    {
        let ids = self.ids()?;
        let text = join_list(self.alloc, ids.as_slice())?;
        Ok(PoolStep::reply(Reply::Value(text)))
    }

    fn ids(&self) -> Result<Texts, NoMemory>
        ensures { IfOk result (λ ids. ids ≡ pool_ids self.now) }
    {
        let mut ids = Texts::new(self.alloc);
        for (number, _) in &self.pools {
            ids.push(id_text(self.alloc, IdKind::Pool, *number)?)?;
        }
        Ok(ids)
    }

    // Its workers begin no job, or begin jobs again.
    fn suspend(&mut self, id: &Text, on: bool) -> Result<PoolStep, NoMemory>
        ensures table { OnOk result (self.new ≡ (in_pool (suspends on) self.old id.now).table) }
        ensures gives { IfOk result (λ gives. gives ≡ (in_pool (suspends on) self.old id.now).gives) }
    {
        let alloc = self.alloc;
        let Some(number) = id_number(IdKind::Pool, id.as_bytes()) else {
            return not_found(alloc, id);
        };
        match self.pools.get_mut(&number) {
            Some(pool) => {
                pool.suspended = on;
                Ok(PoolStep::reply(Reply::Go))
            }
            None => not_found(alloc, id),
        }
    }
}

fn not_found(alloc: Global, id: &Text) -> Result<PoolStep, NoMemory>
    ensures { IfOk result (λ gives. gives ≡ replies (Refused (missing id.now))) }
{
    let reply = missing(alloc, id)?;
    Ok(PoolStep::reply(reply))
}
