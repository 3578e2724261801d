ghost use Rattle.std.specs.Prelude.{◌≡◌, IfOk, OnOk};
ghost use Rattle.tt_pools.specs.Calls.{after_cancelling};
ghost use Rattle.tt_pools.specs.Jobs.{cancels, cancels_one};
ghost use Rattle.tt_pools.specs.inside.Cancelling.{so_far};

use crate::{Jobs, Pool, PoolStep};
use indexmap::IndexSet;
use std::alloc::Global;
use tt_calls::Reply;
use tt_lists::join_list;
use tt_text::{NoMemory, Text, Texts};

// Which of the listed jobs were cancelled, and which others there are, each once.
#[derive(Drop)]
struct Listed {
    gone: Texts,
    others: IndexSet<Text>,
}

impl Pool {
    // The listed jobs that no worker has begun are cancelled.
    pub(crate) fn cancel(&mut self, alloc: Global, listed: &[Text]) -> Result<PoolStep, NoMemory>
        ensures pool { OnOk result (self.new ≡ (after_cancelling listed.now self.old).pool) }
        ensures gives { IfOk result (λ gives. gives ≡ (after_cancelling listed.now self.old).gives) }
    {
        let left = cancel_all(alloc, &mut self.jobs, listed)?;
        let gone = join_list(alloc, left.gone.as_slice())?;
        let others = join_list(alloc, left.others.as_slice())?;
        Ok(PoolStep::reply(Reply::Lists(gone, others)))
    }
}

fn cancel_all(alloc: Global, jobs: &mut Jobs, listed: &[Text]) -> Result<Listed, NoMemory>
    ensures jobs { OnOk result (jobs.new ≡ (cancels jobs.old listed.now).jobs) }
    ensures gone { IfOk result (λ left. left.gone ≡ (cancels jobs.old listed.now).gone) }
    ensures others { IfOk result (λ left. left.others.keys ≡ (cancels jobs.old listed.now).others) }
{
    let mut left = Listed {
        gone: Texts::new(alloc),
        others: IndexSet::new(alloc),
    };
    for job in listed {
        cancel_one(jobs, &mut left, job)?;
    }
    Ok(left)
}

fn cancel_one(jobs: &mut Jobs, left: &mut Listed, job: &Text) -> Result<(), NoMemory>
    ensures { OnOk result (so_far jobs.new left.new ≡ cancels_one (so_far jobs.old left.old) job.now) }
{
    if jobs.is_queued(job) {
        jobs.drop_queued(job);
        left.gone.push(job.copy()?)?;
    } else if jobs.is_begun(job) || jobs.is_done(job) {
        left.others.insert(job.copy()?)?;
    }
    Ok(())
}
