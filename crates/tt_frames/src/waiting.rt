//! The wait for jobs of a pool.
ghost use Rattle.std.specs.Prelude.{◌≡◌, IfOk};
ghost use Rattle.tt_calls.specs.declared.request.Request.TheVariants as asks;
ghost use Rattle.tt_frames.specs.Asking.{waiting};
ghost use Rattle.tt_frames.specs.Frames.{after, on_got};
ghost use Rattle.tt_frames.specs.Waiting.{jobs_answer, look_of};
ghost use Rattle.tt_frames.specs.declared.state.Counts.{Counts};
ghost use Rattle.tt_evaluation.specs.Frames.{plan_of};

use crate::calls::{answer, ask};
use crate::job::{Awaits, Job, JobsWait, Until};
use crate::language::Next;
use crate::storing::store;
use std::alloc::Global;
use tt_calls::{Boxed, PoolCall, Reply, Request};
use tt_text::{NoMemory, Text, Texts};
use tt_value::Value;

/// A command begins that waits for the jobs that it asks for.
pub(crate) fn begin_waiting(
    alloc: Global,
    request: Request,
    variable: Option<Text>,
) -> Result<Next, NoMemory>
    ensures { IfOk result (λ move. (state : Counts)
        → waiting request variable state ≡ plan_of after on_got move state) }
{
    match request {
        Request::Pool(call) => {
            let next = begin_look(alloc, call.into_inner(), variable)?;
            Ok(next)
        }
        request => {
            let next = ask(alloc, request, Awaits::Value)?;
            Ok(next)
        }
    }
}

fn begin_look(alloc: Global, call: PoolCall, variable: Option<Text>) -> Result<Next, NoMemory>
    ensures { IfOk result (λ move. (state : Counts)
        → waiting (asks.Pool call) variable state ≡ plan_of after on_got move state) }
{
    match call {
        PoolCall::Look { pool, jobs } => {
            let wait = JobsWait {
                pool,
                jobs,
                variable,
            };
            Ok(Next::Goto(Job::Serve(Until::Jobs(Boxed::new(alloc, wait)?))))
        }
        call => {
            let next = ask(
                alloc,
                Request::Pool(Boxed::new(alloc, call)?),
                Awaits::Value,
            )?;
            Ok(next)
        }
    }
}

/// What asks for the jobs that are done.
pub(crate) fn look_of(alloc: Global, wait: &JobsWait) -> Result<Request, NoMemory>
    ensures { IfOk result (λ request. request ≡ look_of wait.now) }
{
    let look = PoolCall::Look {
        pool: wait.pool.copy()?,
        jobs: Texts::from_copies(alloc, wait.jobs.as_slice())?,
    };
    Ok(Request::Pool(Boxed::new(alloc, look)?))
}

/// Which jobs are done is known.
pub(crate) fn end_waiting(alloc: Global, wait: JobsWait, reply: Reply) -> Result<Next, NoMemory>
    ensures { IfOk result (λ move. (state : Counts) → jobs_answer wait reply state ≡ plan_of after on_got move state) }
{
    match reply {
        Reply::Lists(done, pending) => {
            let pending = Value::from_text(pending);
            let next = store(alloc, wait.variable, pending, Value::from_text(done))?;
            Ok(next)
        }
        reply => Ok(Next::Done(answer(alloc, reply)?)),
    }
}
