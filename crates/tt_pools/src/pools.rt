ghost use Rattle.std.specs.Prelude.{◌≡◌, option_copied};
ghost use Rattle.std.specs.List.{list_any};
ghost use Rattle.tt_pools.specs.Calls.{lacks_done, waits};
ghost use Rattle.tt_pools.specs.Jobs.{is_done, is_pending};
ghost use Rattle.tt_pools.specs.Pools.{no_pools, pool_of};

use crate::{Jobs, Pool};
use std::alloc::Global;
use std::collections::BTreeMap;
use std::marker::Model;
use tt_calls::PoolCall;
use tt_ids::{IdKind, id_number};
use tt_text::Text;

/// The open pools. Contracts see the table of them by their numbers.
#[derive(Debug, Drop)]
pub struct Pools {
    pub(crate) pools: BTreeMap<u64, Pool>,
    pub(crate) next: u64,
    pub(crate) alloc: Global,
}

impl Model for Pools {
    ghost use Rattle.tt_pools.specs.Pools.{PoolTable};

    ghost Value = { PoolTable };

    ghost view = { λ pools. record { pools = pools.pools.entries; next = pools.next } };
}

impl Pools {
    /// No pools. It takes no memory.
    pub fn new(alloc: Global) -> Self
        ensures empty { result ≡ no_pools }
    {
        Pools {
            pools: BTreeMap::new(alloc),
            next: 1,
            alloc,
        }
    }

    // The open pool of an id.
    pub(crate) fn find(&self, id: &Text) -> Option<&Pool>
        ensures { option_copied result ≡ pool_of self.now id.now }
    {
        let number = id_number(IdKind::Pool, id.as_bytes())?;
        self.pools.get(&number)
    }

    /// Whether the thread has to wait before its call is done: for a job of the listed ones that is done, which waits
    /// for events meanwhile, or as a worker for its next job. `marked` says whether the thread is to stop. It takes
    /// no memory.
    pub fn waits(&self, call: &PoolCall, marked: bool) -> bool
        ensures waits { result ≡ waits self.now marked call.now }
    {
        match call {
            PoolCall::Look { pool, jobs } => self
                .find(pool)
                .is_some_and(|pool| lacks_done(&pool.jobs, jobs.as_slice())),
            PoolCall::JobTake { pool } => {
                !marked
                    && self
                        .find(pool)
                        .is_some_and(|pool| pool.suspended || pool.jobs.has_none_queued())
            }
            _ => false,
        }
    }
}

fn lacks_done(jobs: &Jobs, listed: &[Text]) -> bool
    ensures { result ≡ lacks_done jobs.now listed.now }
{
    !has_done(jobs, listed) && has_pending(jobs, listed)
}

fn has_done(jobs: &Jobs, listed: &[Text]) -> bool
    ensures { result ≡ list_any (is_done jobs.now) listed.now }
{
    listed.iter().any(|job| jobs.is_done(job))
}

fn has_pending(jobs: &Jobs, listed: &[Text]) -> bool
    ensures { result ≡ list_any (is_pending jobs.now) listed.now }
{
    listed.iter().any(|job| jobs.is_pending(job))
}
