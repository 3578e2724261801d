//! Laws about the definitions, each proved as the contract of a function that does nothing.
ghost use Rattle.laws_pools.specs.PoolAnswers.{AnswerLaw};
ghost use Rattle.laws_pools.specs.PoolExamples.{WorkedPools};
ghost use Rattle.laws_pools.specs.PoolJobs.{JobLaw};
ghost use Rattle.laws_pools.specs.PoolWorkers.{WorkerLaw};

/// A job begins at most once, in the order posted, and what it came to is answered at most once: what was handed in, or
/// that its thread has ended.
pub fn jobs_are_kept()
    ensures { JobLaw }
{}

/// What a job came to that is not detached is answered to who asks for it first.
pub fn ended_jobs_are_answered()
    ensures { AnswerLaw }
{}

/// If jobs are asked for as workers do, each is begun by a worker of its pool, and is not left behind.
pub fn workers_begin_jobs()
    ensures { WorkerLaw }
{}

/// What happens in runs of the examples.
pub fn worked_pools()
    ensures { WorkedPools }
{}
