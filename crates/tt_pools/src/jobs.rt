ghost use Rattle.std.specs.Prelude.{◌≡◌, ◌↔◌, IsTrue, IfNone, IfOk, OnOk, codes};
ghost use Rattle.tt_calls.specs.Outcomes.{error_outcome};
ghost use Rattle.std.specs.List.{list_any};
ghost use Rattle.std.specs.Map.{values_of};
ghost use Rattle.tt_pools.specs.Jobs.{at, begins, fails, finishes, has_none, is_begun, is_done, is_job, is_own_begun};
ghost use Rattle.tt_pools.specs.Jobs.{is_pending, is_queued, no_jobs, oldest, outcome_of, with_posted_job, unfinished};
ghost use Rattle.tt_pools.specs.Jobs.{with_outcome, without_outcome, without_queued};

use std::alloc::Global;
use std::collections::BTreeMap;
use std::marker::Model;
use tt_calls::Outcome;
use tt_ids::{number_after, number_of};
use tt_text::{NoMemory, Text};

/// A job that no worker has begun.
#[derive(Debug, Drop)]
pub struct Queued {
    pub script: Text,
    /// Whether nobody asks what it comes to (tpool(n), tpool::post -detached).
    pub detached: bool,
}

/// The job that a worker has begun.
#[derive(Clone, Copy, Debug)]
pub struct Begun {
    pub job: u64,
    pub detached: bool,
}

/// The jobs of a pool. Contracts see the lists of them by their numbers.
#[derive(Debug, Drop)]
pub struct Jobs {
    queued: BTreeMap<u64, Queued>,
    begun: BTreeMap<u32, Begun>,
    done: BTreeMap<u64, Outcome>,
    next: u64,
}

impl Model for Jobs {
    ghost use Rattle.tt_pools.specs.Jobs.{JobTable};

    ghost Value = { JobTable };

    ghost view = { λ jobs. record {
      queued = jobs.queued.entries;
      begun = jobs.begun.entries;
      done = jobs.done.entries;
      next = jobs.next;
    } };
}

impl Jobs {
    /// No jobs. It takes no memory.
    pub(crate) fn new(alloc: Global) -> Self
        ensures { result ≡ no_jobs }
    {
        Jobs {
            queued: BTreeMap::new(alloc),
            begun: BTreeMap::new(alloc),
            done: BTreeMap::new(alloc),
            next: 1,
        }
    }

    // A job more, and its number.
    pub(crate) fn post(&mut self, script: Text, detached: bool) -> Result<u64, NoMemory>
        ensures posted { OnOk result (self.new ≡ with_posted_job self.old script detached) }
        ensures number { IfOk result (λ number. number ≡ self.old.next) }
    {
        let number = self.next;
        let next = number_after(number)?;
        self.queued.insert(number, Queued { script, detached })?;
        self.next = next;
        Ok(number)
    }

    // How many are not done.
    pub(crate) fn unfinished(&self) -> usize
        ensures { result ≡ unfinished self.now }
    {
        self.queued.len() + self.begun.len()
    }

    // Whether none waits for a worker.
    pub(crate) fn has_none_queued(&self) -> bool
        ensures { result ≡ has_none self.now.queued }
    {
        self.queued.is_empty()
    }

    pub(crate) fn is_queued(&self, job: &Text) -> bool
        ensures { result ≡ is_queued self.now job.now }
    {
        match number_of(job.as_bytes()) {
            Some(number) => self.queued.get(&number).is_some_and(|job| !job.detached),
            None => false,
        }
    }

    pub(crate) fn is_begun(&self, job: &Text) -> bool
        ensures { result ≡ is_begun self.now job.now }
    {
        match number_of(job.as_bytes()) {
            Some(number) => self.has_begun(number),
            None => false,
        }
    }

    // Whether a worker has begun the job of this number, which isn't detached.
    fn has_begun(&self, number: u64) -> bool
        ensures { result ≡ list_any (is_own_begun number) (values_of self.now.begun) }
    {
        self.begun
            .values()
            .any(|begun| begun.job == number && !begun.detached)
    }

    pub(crate) fn is_done(&self, job: &Text) -> bool
        ensures { result ≡ is_done self.now job.now }
    {
        match number_of(job.as_bytes()) {
            Some(number) => self.done.contains_key(&number),
            None => false,
        }
    }

    // Whether it waits for a worker, or for its end.
    pub(crate) fn is_pending(&self, job: &Text) -> bool
        ensures { result ≡ is_pending self.now job.now }
    {
        self.is_queued(job) || self.is_begun(job)
    }

    // A queued job is dropped.
    pub(crate) fn drop_queued(&mut self, job: &Text)
        ensures { self.new ≡ without_queued self.old job.now }
    {
        if let Some(number) = number_of(job.as_bytes()) {
            self.queued.remove(&number);
        }
    }

    // What a job came to, which is reported once.
    pub(crate) fn take_outcome(&mut self, job: &Text) -> Option<Outcome>
        ensures outcome { result ≡ outcome_of self.old job.now }
        ensures taken { self.new ≡ without_outcome self.old job.now }
        ensures unchanged { IfNone result (self.new ≡ self.old) }
    {
        let number = number_of(job.as_bytes())?;
        self.done.remove(&number)
    }

    // The oldest job is begun by a worker: its number, its script, and whether it is detached.
    pub(crate) fn begin(&mut self, worker: u32) -> Result<Option<(u64, Queued)>, NoMemory>
        ensures begun { OnOk result (self.new ≡ begins self.old worker self.old.queued) }
        ensures job { IfOk result (λ job. job ≡ oldest self.old.queued) }
    {
        let Some((number, job)) = self.queued.pop_first() else {
            return Ok(None);
        };
        let begun = Begun {
            job: number,
            detached: job.detached,
        };
        self.begun.insert(worker, begun)?;
        Ok(Some((number, job)))
    }

    // What the job came to that a worker has begun; whether it has begun it.
    pub(crate) fn finish(
        &mut self,
        worker: u32,
        number: u64,
        outcome: Outcome,
    ) -> Result<bool, NoMemory>
        ensures finished { OnOk result (self.new ≡ finishes self.old worker number outcome (at self.old.begun worker)) }
        ensures begun { IfOk result (λ begun. begun ≡ is_job number (at self.old.begun worker)) }
    {
        match self.begun.get(&worker) {
            Some(begun) if begun.job == number => {
                let begun = *begun;
                self.keep(worker, begun, outcome)?;
                Ok(true)
            }
            _ => Ok(false),
        }
    }

    // What a begun job came to is recorded, but of a detached one.
    fn keep(&mut self, worker: u32, begun: Begun, outcome: Outcome) -> Result<(), NoMemory>
        ensures { OnOk result (self.new ≡ with_outcome self.old worker begun outcome) }
    {
        self.begun.remove(&worker);
        if !begun.detached {
            self.done.insert(begun.job, outcome)?;
        }
        Ok(())
    }

    // The end of a worker: the job that it has begun has failed.
    pub(crate) fn fail(&mut self, alloc: Global, worker: u32) -> Result<(), NoMemory>
        ensures { OnOk result (self.new ≡ fails self.old worker (at self.old.begun worker)) }
    {
        match self.begun.get(&worker).copied() {
            Some(begun) => self.keep(worker, begun, died(alloc)?),
            None => Ok(()),
        }
    }
}

// What a job comes to whose worker has ended.
fn died(alloc: Global) -> Result<Outcome, NoMemory>
    ensures { IfOk result (λ outcome. outcome ≡ error_outcome (codes "target thread died")) }
{
    let message = Text::from_bytes(alloc, b"target thread died")?;
    let outcome = Outcome::failed(message)?;
    Ok(outcome)
}
