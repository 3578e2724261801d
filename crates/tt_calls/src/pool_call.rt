use crate::Outcome;
use tt_text::{Text, Texts};

/// A call on a pool of workers (tpool(n)).
#[derive(Debug, Drop)]
pub enum PoolCall {
    /// Make a pool of at least `least` and at most `most` workers, with its scripts for new ones and for those that
    /// end.
    Create {
        least: u32,
        most: u32,
        init: Text,
        exit: Text,
    },
    /// The ids of the open pools.
    Names,
    /// Put a job into its queue.
    Post {
        pool: Text,
        script: Text,
        detached: bool,
    },
    /// Which of the jobs are done; if none is and one is pending, wait for an event.
    Look {
        pool: Text,
        jobs: Texts,
    },
    /// Take jobs out of its queue.
    Cancel {
        pool: Text,
        jobs: Texts,
    },
    /// The result of a job, once.
    Get {
        pool: Text,
        job: Text,
    },
    Preserve {
        pool: Text,
    },
    Release {
        pool: Text,
    },
    /// Begin no job, or begin jobs again.
    Suspend {
        pool: Text,
        on: bool,
    },
    /// A worker's wait for its next job.
    JobTake {
        pool: Text,
    },
    /// What the job that a worker has begun came to.
    JobDone {
        pool: Text,
        job: u64,
        outcome: Outcome,
    },
}
