ghost use Rattle.std.specs.Prelude.{◌≡◌};
ghost use Rattle.tt_pools.specs.Calls.{wants_worker};
ghost use Rattle.tt_pools.specs.Pools.{new_pool};

use crate::Jobs;
use std::alloc::Global;
use tt_text::Text;

/// A pool.
#[derive(Debug, Drop)]
pub struct Pool {
    /// What each of its workers evaluates first (tpool(n), tpool::create -initcmd).
    pub init: Text,
    /// What each of its workers evaluates last (tpool(n), tpool::create -exitcmd).
    pub exit: Text,
    /// The most workers that it has.
    pub most: u32,
    /// How many it has.
    pub workers: u32,
    /// How many holds it has less those that were given up (tpool(n), tpool::preserve, tpool::release).
    pub count: i64,
    /// Whether its workers begin no job (tpool(n), tpool::suspend).
    pub suspended: bool,
    pub jobs: Jobs,
}

impl Pool {
    pub(crate) fn new(alloc: Global, most: u32, workers: u32, init: Text, exit: Text) -> Self
        ensures { result ≡ new_pool most workers init exit }
    {
        Pool {
            init,
            exit,
            most,
            workers,
            count: 0,
            suspended: false,
            jobs: Jobs::new(alloc),
        }
    }

    // Whether it is to get a worker more, if so many threads may still be made.
    pub(crate) fn wants_worker(&self, room: u32) -> bool
        ensures { result ≡ wants_worker self.now room }
    {
        (self.workers as usize) < self.jobs.unfinished() && self.workers < self.most && room > 0
    }
}
