//! What a thread does from its start to its end.
ghost use Rattle.tt_evaluation.specs.declared.language.Move.TheVariants as moves;
ghost use Rattle.tt_frames.specs.declared.job.Asking.TheVariants as askings;
ghost use Rattle.tt_outcomes.specs.declared.want.Want.TheVariants as wants;
ghost use Rattle.std.specs.Prelude.{◌≡◌, IfOk};
ghost use Rattle.tt_frames.specs.Frames.{after, on_got};
ghost use Rattle.tt_frames.specs.Starts.{end_of_start, report, reporting, starting};
ghost use Rattle.tt_frames.specs.declared.state.Counts.{Counts};
ghost use Rattle.tt_evaluation.specs.Frames.{plan_of};

use crate::job::{Asking, Frame, Job};
use crate::language::Next;
use crate::storing::telling;
use crate::workers::begin_worker;
use std::alloc::Global;
use tt_calls::{Boxed, Request, Start};
use tt_outcomes::{Ending, Want};
use tt_text::{NoMemory, Text};

/// A thread begins.
pub(crate) fn begin_start(alloc: Global, start: Start) -> Result<Next, NoMemory>
    ensures { IfOk result (λ move. (state : Counts) → starting start state ≡ plan_of after on_got move state) }
{
    match start {
        Start::Script(text) => Ok(Next::Call(None, Job::Script(text), Frame::Reports)),
        Start::Worker { pool, init, exit } => {
            let next = begin_worker(alloc, pool, init, exit)?;
            Ok(next)
        }
    }
}

/// The script of a start ended so.
pub(crate) fn finish(alloc: Global, ending: Ending) -> Result<Next, NoMemory>
    ensures { IfOk result (λ move. (state : Counts) → end_of_start ending state ≡ plan_of after on_got move state) }
{
    match ending.of_script(alloc)? {
        Ending::Failed(failure) => {
            let want = telling(alloc, failure.trace.text().copy()?)?;
            let trace = failure.trace.text().copy()?;
            let ending = Ending::Failed(failure);
            Ok(Next::Ask(want, Asking::Reported(trace, ending)))
        }
        ending => Ok(Next::Done(ending)),
    }
}

/// The error that a thread ends with is recorded, and is reported.
pub(crate) fn report_error(
    alloc: Global,
    trace: Text,
    ending: Ending,
    me: u32,
) -> Result<Next, NoMemory>
    ensures { IfOk result (λ move. move ≡ moves.Ask (wants.Ask (report me trace)) (askings.Ends ending)) }
{
    let request = report(trace, me)?;
    let request = Boxed::new(alloc, request)?;
    Ok(Next::Ask(Want::Ask { request }, Asking::Ends(ending)))
}

fn report(trace: Text, me: u32) -> Result<Request, NoMemory>
    ensures { IfOk result (λ request. request ≡ report me trace) }
{
    if me == 1 {
        let mut text = trace;
        text.push_bytes(b"\n")?;
        Ok(Request::WriteErr { text })
    } else {
        Ok(Request::Report {
            trace,
            plain: false,
        })
    }
}
