ghost use Rattle.std.specs.Prelude.{◌≡◌, [], IfOk, OnOk, if◌then◌else◌};
ghost use Rattle.std.specs.Fmt.{decimal};
ghost use Rattle.tt_calls.specs.declared.reply.Reply.TheVariants.{Value};
ghost use Rattle.tt_pools.specs.Calls.{begins_job, counts, ends_job, grows, loses, more, posts, takes_outcome};
ghost use Rattle.tt_pools.specs.Calls.{workers_made};
ghost use Rattle.tt_pools.specs.Pools.{worker_of};

use crate::telling::{no_outcome, refused};
use crate::{Pool, PoolStep};
use std::alloc::Global;
use tt_calls::{Outcome, Reply, Start, Step};
use tt_ids::{count_with, number_text};
use tt_number::whole_text;
use tt_text::{NoMemory, Text};

/// What a count of holds counts.
#[derive(Clone, Copy)]
pub(crate) enum Hold {
    Taken,
    GivenUp,
}

impl Hold {
    // What it adds to the count.
    fn more(self) -> i64
        ensures { result ≡ more self }
    {
        match self {
            Hold::Taken => 1,
            Hold::GivenUp => -1,
        }
    }
}

impl Pool {
    // So many workers are made of it.
    pub(crate) fn workers_made(
        &self,
        id: &Text,
        start: u32,
        reply: Reply,
    ) -> Result<PoolStep, NoMemory>
        ensures { IfOk result (λ gives. gives ≡ workers_made id.now self.now start reply) }
    {
        let worker = if start > 0 {
            Some(self.worker(id)?)
        } else {
            None
        };
        Ok(PoolStep {
            step: Step::Reply(reply),
            start,
            worker,
        })
    }

    // What its workers begin with.
    fn worker(&self, id: &Text) -> Result<Start, NoMemory>
        ensures { IfOk result (λ start. start ≡ worker_of id.now self.now) }
    {
        Ok(Start::Worker {
            pool: id.copy()?,
            init: self.init.copy()?,
            exit: self.exit.copy()?,
        })
    }

    // A job more, and maybe a worker.
    pub(crate) fn post(
        &mut self,
        alloc: Global,
        id: &Text,
        script: &Text,
        detached: bool,
        room: u32,
    ) -> Result<PoolStep, NoMemory>
        ensures pool { OnOk result (self.new ≡ (posts id.now script.now detached room self.old).pool) }
        ensures gives { IfOk result (λ gives. gives ≡ (posts id.now script.now detached room self.old).gives) }
    {
        if self.workers == 0 && room == 0 {
            let reply = refused(alloc, b"too many threads")?;
            return Ok(PoolStep::reply(reply));
        }
        let number = self.jobs.post(script.copy()?, detached)?;
        let reply = job_reply(alloc, number, detached)?;
        self.grow(id, room, reply)
    }

    // A worker more, if it is to get one.
    fn grow(&mut self, id: &Text, room: u32, reply: Reply) -> Result<PoolStep, NoMemory>
        ensures pool { OnOk result (self.new ≡ (grows id.now room reply self.old).pool) }
        ensures gives { IfOk result (λ gives. gives ≡ (grows id.now room reply self.old).gives) }
    {
        if !self.wants_worker(room) {
            return Ok(PoolStep::reply(reply));
        }
        let gives = self.workers_made(id, 1, reply)?;
        self.workers += 1;
        Ok(gives)
    }

    // One hold more, or one less.
    pub(crate) fn count(&mut self, alloc: Global, hold: Hold) -> Result<PoolStep, NoMemory>
        ensures pool { OnOk result (self.new ≡ (counts (more hold) self.old).pool) }
        ensures gives { IfOk result (λ gives. gives ≡ (counts (more hold) self.old).gives) }
    {
        let count = count_with(self.count, hold.more())?;
        self.count = count;
        let text = whole_text(alloc, count)?;
        Ok(PoolStep::reply(Reply::Value(text)))
    }

    // What a job came to, once.
    pub(crate) fn take_outcome(&mut self, alloc: Global, job: &Text) -> Result<PoolStep, NoMemory>
        ensures pool { OnOk result (self.new ≡ (takes_outcome job.now self.old).pool) }
        ensures gives { IfOk result (λ gives. gives ≡ (takes_outcome job.now self.old).gives) }
    {
        match self.jobs.take_outcome(job) {
            Some(outcome) => Ok(PoolStep::reply(Reply::Answer(outcome))),
            None => {
                let reply = no_outcome(alloc, &self.jobs, job)?;
                Ok(PoolStep::reply(reply))
            }
        }
    }

    // A worker's next job.
    pub(crate) fn begin_job(&mut self, worker: u32) -> Result<PoolStep, NoMemory>
        ensures pool { OnOk result (self.new ≡ (begins_job worker self.old).pool) }
        ensures gives { IfOk result (λ gives. gives ≡ (begins_job worker self.old).gives) }
    {
        let reply = match self.jobs.begin(worker)? {
            Some((number, job)) => Reply::Job(number, job.script, job.detached),
            None => Reply::JobStop,
        };
        Ok(PoolStep::reply(reply))
    }

    // What a worker's job came to.
    pub(crate) fn end_job(
        &mut self,
        alloc: Global,
        worker: u32,
        number: u64,
        outcome: Outcome,
    ) -> Result<PoolStep, NoMemory>
        ensures pool { OnOk result (self.new ≡ (ends_job worker number outcome self.old).pool) }
        ensures gives { IfOk result (λ gives. gives ≡ (ends_job worker number outcome self.old).gives) }
    {
        if self.jobs.finish(worker, number, outcome)? {
            Ok(PoolStep::reply(Reply::Go))
        } else {
            Ok(PoolStep::reply(Reply::Refused(Text::new(alloc))))
        }
    }

    // The end of a worker.
    pub(crate) fn lose(&mut self, alloc: Global, worker: u32) -> Result<(), NoMemory>
        ensures { OnOk result (self.new ≡ loses worker self.old) }
    {
        self.jobs.fail(alloc, worker)?;
        self.workers = self.workers.saturating_sub(1);
        Ok(())
    }
}

// The number of a new job, which a detached one doesn't get.
fn job_reply(alloc: Global, number: u64, detached: bool) -> Result<Reply, NoMemory>
    ensures { IfOk result (λ reply. reply ≡ Value (if detached then [] else decimal number)) }
{
    if detached {
        return Ok(Reply::Value(Text::new(alloc)));
    }
    let text = number_text(alloc, number)?;
    Ok(Reply::Value(text))
}
