//! What a worker of a pool does.
ghost use Rattle.std.specs.Prelude.{◌≡◌, IfOk};
ghost use Rattle.tt_calls.specs.declared.request.Request.TheVariants as asks;
ghost use Rattle.tt_frames.specs.Frames.{after, after_worker, on_got, on_worker_got};
ghost use Rattle.tt_frames.specs.Workers as workers;
ghost use Rattle.tt_frames.specs.declared.job.Asking.TheVariants as askings;
ghost use Rattle.tt_frames.specs.declared.job.Frame.TheVariants as frames;
ghost use Rattle.tt_frames.specs.declared.job.Job.TheVariants as jobs;
ghost use Rattle.tt_frames.specs.declared.job.WorkerFrame.TheVariants as worker_frames;
ghost use Rattle.tt_frames.specs.declared.state.Counts.{Counts};
ghost use Rattle.tt_evaluation.specs.Frames.{plan_of};
ghost use Rattle.tt_evaluation.specs.declared.language.Move.TheVariants as moves;
ghost use Rattle.tt_outcomes.specs.declared.want.Want.TheVariants as wants;

use crate::job::{Asking, BegunJob, Frame, Job, Work, Worker, WorkerAsking, WorkerFrame};
use crate::language::Next;
use crate::storing::telling;
use std::alloc::Global;
use tt_calls::{Boxed, PoolCall, Reply, Request};
use tt_outcomes::{Ending, Got, Want};
use tt_text::{NoMemory, Text};

/// A worker begins with the pool's script for new ones.
pub(crate) fn begin_worker(
    alloc: Global,
    pool: Text,
    init: Text,
    exit: Text,
) -> Result<Next, NoMemory>
    ensures { IfOk result (λ move. (state : Counts)
        → workers.begins init (workers.worker_of pool exit) state ≡ plan_of after on_got move state) }
{
    let worker = Boxed::new(alloc, Worker { pool, exit })?;
    Ok(aside(init, Work::Takes(worker)))
}

// A script of the pool is evaluated, and then that is done.
fn aside(script: Text, next: Work) -> Next
    ensures { result ≡ moves.Call None (jobs.Script script) (frames.Works (worker_frames.Aside next)) }
{
    Next::Call(
        None,
        Job::Script(script),
        Frame::Works(WorkerFrame::Aside(next)),
    )
}

/// What a worker does next.
pub(crate) fn begin_work(alloc: Global, work: Work) -> Result<Next, NoMemory>
    ensures { IfOk result (λ move. (state : Counts) → workers.working work state ≡ plan_of after on_got move state) }
{
    match work {
        Work::Takes(worker) => {
            let pool = worker.get().pool.copy()?;
            let next = ask(
                alloc,
                PoolCall::JobTake { pool },
                WorkerAsking::Takes(worker),
            )?;
            Ok(next)
        }
        Work::Over => Ok(Next::Done(Ending::nothing(alloc))),
    }
}

// The pool is asked.
fn ask(alloc: Global, call: PoolCall, asking: WorkerAsking) -> Result<Next, NoMemory>
    ensures { IfOk result (λ move. move ≡ moves.Ask (wants.Ask (asks.Pool call)) (askings.Works asking)) }
{
    let request = Boxed::new(alloc, Request::Pool(Boxed::new(alloc, call)?))?;
    Ok(Next::Ask(Want::Ask { request }, Asking::Works(asking)))
}

/// A script of a worker ended so.
pub(crate) fn after_worker(
    alloc: Global,
    frame: WorkerFrame,
    ending: Ending,
) -> Result<Next, NoMemory>
    ensures { IfOk result (λ move. (state : Counts)
        → after_worker frame ending state ≡ plan_of after on_got move state) }
{
    match frame {
        WorkerFrame::Aside(next) => {
            let next = after_aside(alloc, next, ending)?;
            Ok(next)
        }
        WorkerFrame::Runs(begun) => {
            let next = after_script(alloc, begun, ending)?;
            Ok(next)
        }
    }
}

// The script for new workers ended so, or the one for those that end: an error is recorded.
fn after_aside(alloc: Global, next: Work, ending: Ending) -> Result<Next, NoMemory>
    ensures { IfOk result (λ move. (state : Counts)
        → workers.aside next ending state ≡ plan_of after on_got move state) }
{
    match ending.of_script(alloc)? {
        Ending::Failed(failure) => {
            let want = telling(alloc, failure.trace.text().copy()?)?;
            let trace = failure.trace.text().copy()?;
            Ok(Next::Ask(want, Asking::Works(WorkerAsking::Told(trace, next))))
        }
        _ => Ok(Next::Goto(Job::Work(next))),
    }
}

// The script of a job ended so: an error is recorded.
fn after_script(alloc: Global, begun: BegunJob, ending: Ending) -> Result<Next, NoMemory>
    ensures { IfOk result (λ move. (state : Counts)
        → workers.job_ended begun ending state ≡ plan_of after on_got move state) }
{
    match ending.of_script(alloc)? {
        Ending::Failed(failure) => {
            let want = telling(alloc, failure.trace.text().copy()?)?;
            let asking = WorkerAsking::JobTold(begun, failure);
            Ok(Next::Ask(want, Asking::Works(asking)))
        }
        ending => {
            let next = hand_in(alloc, begun, ending)?;
            Ok(next)
        }
    }
}

// The pool gets what a job came to.
fn hand_in(alloc: Global, begun: BegunJob, ending: Ending) -> Result<Next, NoMemory>
    ensures { IfOk result (λ move. (state : Counts)
        → workers.handing_in begun ending state ≡ plan_of after on_got move state) }
{
    let BegunJob {
        worker,
        number,
        detached,
    } = begun;
    let trace = reported_trace(detached, &ending)?;
    let done = PoolCall::JobDone {
        pool: worker.get().pool.copy()?,
        job: number,
        outcome: ending.into_outcome(alloc)?,
    };
    let next = ask(alloc, done, WorkerAsking::Done(worker, trace))?;
    Ok(next)
}

// The trace that is reported of a job.
fn reported_trace(detached: bool, ending: &Ending) -> Result<Option<Text>, NoMemory>
    ensures { IfOk result (λ trace. trace ≡ workers.reported_trace detached ending.now) }
{
    match ending {
        Ending::Failed(failure) if detached => Ok(Some(failure.trace.text().copy()?)),
        _ => Ok(None),
    }
}

/// A worker gets what it waits for.
pub(crate) fn take_got(alloc: Global, asking: WorkerAsking, got: &Got) -> Result<Next, NoMemory>
    ensures { IfOk result (λ move. (state : Counts)
        → on_worker_got asking got.now state ≡ plan_of after on_got move state) }
{
    match asking {
        WorkerAsking::Takes(worker) => {
            let next = begin_job(worker, got)?;
            Ok(next)
        }
        WorkerAsking::Told(trace, next) => {
            let next = report(alloc, trace, next)?;
            Ok(next)
        }
        WorkerAsking::JobTold(begun, failure) => {
            let next = hand_in(alloc, begun, Ending::Failed(failure))?;
            Ok(next)
        }
        WorkerAsking::Done(worker, trace) => {
            let next = after_job(alloc, worker, trace)?;
            Ok(next)
        }
    }
}

// A worker has a job, or there is none.
fn begin_job(worker: Boxed<Worker>, got: &Got) -> Result<Next, NoMemory>
    ensures { IfOk result (λ move. (state : Counts) →
        workers.job_then worker got.now state ≡ plan_of after on_got move state) }
{
    match got {
        Got::Reply(Reply::Job(number, script, detached)) => {
            let script = script.copy()?;
            let begun = BegunJob {
                worker,
                number: *number,
                detached: *detached,
            };
            Ok(Next::Call(
                None,
                Job::Script(script),
                Frame::Works(WorkerFrame::Runs(begun)),
            ))
        }
        _ => Ok(aside(worker.get().exit.copy()?, Work::Over)),
    }
}

// A job is done.
fn after_job(alloc: Global, worker: Boxed<Worker>, trace: Option<Text>) -> Result<Next, NoMemory>
    ensures { IfOk result (λ move. (state : Counts)
        → workers.after_job worker trace state ≡ plan_of after on_got move state) }
{
    let next = Work::Takes(worker);
    match trace {
        None => Ok(Next::Goto(Job::Work(next))),
        Some(trace) => {
            let next = report(alloc, trace, next)?;
            Ok(next)
        }
    }
}

// An error is reported, and then that is done.
fn report(alloc: Global, trace: Text, next: Work) -> Result<Next, NoMemory>
    ensures { IfOk result (λ move. (state : Counts)
        → workers.reporting trace next state ≡ plan_of after on_got move state) }
{
    let request = Request::Report {
        trace,
        plain: false,
    };
    let request = Boxed::new(alloc, request)?;
    Ok(Next::Ask(Want::Ask { request }, Asking::Begins(Job::Work(next))))
}
