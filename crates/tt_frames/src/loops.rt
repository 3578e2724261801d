//! Loops (while(n), for(n), foreach(n)).
ghost use Rattle.std.specs.Prelude.{◌≡◌, IfOk};
ghost use Rattle.tt_frames.specs.Frames.{after, assigns, on_got};
ghost use Rattle.tt_frames.specs.Loops as loops;
ghost use Rattle.tt_frames.specs.Vocabulary.{on_fine, on_truth, same_ending};
ghost use Rattle.tt_frames.specs.declared.job.Job.TheVariants as jobs;
ghost use Rattle.tt_frames.specs.declared.state.Counts.{Counts};
ghost use Rattle.tt_evaluation.specs.Frames.{plan_of};
ghost use Rattle.tt_evaluation.specs.Plans.{Goes};

use crate::job::{Asking, Frame, Job, Loop, Purpose};
use crate::language::Next;
use crate::rest::Rest;
use crate::state::{State, Unit};
use crate::storing::setting;
use std::alloc::Global;
use tt_calls::{Boxed, Request};
use tt_outcomes::{Ending, Want};
use tt_text::{NoMemory, Text};
use tt_value::Value;

/// The next turn of a loop begins, if there is one.
pub(crate) fn begin_loop(alloc: Global, next: Loop, state: &mut State) -> Result<Next, NoMemory>
    ensures { IfOk result (λ move. loops.looping next state.old ≡ plan_of after on_got move state.new) }
{
    if is_over(&next) {
        return Ok(Next::Done(Ending::nothing(alloc)));
    }
    match state.spend() {
        Unit::Past => Ok(Next::Done(Ending::failed_with(alloc, b"unit limit reached")?)),
        Unit::Pauses => {
            let request = Boxed::new(alloc, Request::Pause)?;
            Ok(Next::Ask(Want::Ask { request }, Asking::Begins(Job::Turn(next))))
        }
        Unit::Spent => Ok(Next::Goto(Job::Turn(next))),
    }
}

// No values are left.
fn is_over(next: &Loop) -> bool
    ensures { result ≡ loops.is_over next.now }
{
    match next {
        Loop::While { .. } | Loop::For { .. } => false,
        Loop::Foreach { values, .. } => values.is_empty(),
    }
}

/// A turn begins, for which a unit is spent.
pub(crate) fn begin_turn(alloc: Global, turn: Loop) -> Result<Next, NoMemory>
    ensures { IfOk result (λ move. (state : Counts) → loops.turning turn state ≡ plan_of after on_got move state) }
{
    match turn {
        Loop::While { test, body } => {
            let condition = Job::Expression(Purpose::Condition, test.copy()?);
            Ok(Next::Call(None, condition, Frame::Test(Loop::While { test, body })))
        }
        Loop::For { test, next, body } => {
            let condition = Job::Expression(Purpose::Condition, test.copy()?);
            Ok(Next::Call(None, condition, Frame::Test(Loop::For { test, next, body })))
        }
        Loop::Foreach {
            names,
            values,
            body,
        } => {
            let next = assign(alloc, names.copy()?, names, values, body)?;
            Ok(next)
        }
    }
}

// The next name of a turn gets its value; if none is left the body begins.
fn assign(
    alloc: Global,
    left: Rest,
    names: Rest,
    values: Rest,
    body: Text,
) -> Result<Next, NoMemory>
    ensures { IfOk result (λ move. (state : Counts)
        → loops.assigning names left values body state ≡ plan_of after on_got move state) }
{
    let mut left = left;
    let Some(name) = left.take()? else {
        let next = begin_body(Loop::Foreach {
            names,
            values,
            body,
        })?;
        return Ok(next);
    };
    let mut values = values;
    let Some(value) = values.take()? else {
        let next = begin_body(Loop::Foreach {
            names,
            values,
            body,
        })?;
        return Ok(next);
    };
    let want = setting(alloc, name, Value::from_text(value))?;
    let turn = Loop::Foreach {
        names,
        values,
        body,
    };
    Ok(Next::Ask(want, Asking::Wanted(Frame::Assigns(left, turn))))
}

/// The values of a turn go on.
pub(crate) fn go_on_assigning(
    alloc: Global,
    left: Rest,
    turn: Loop,
    ending: Ending,
) -> Result<Next, NoMemory>
    ensures { IfOk result (λ move. (state : Counts)
        → on_fine (λ old. assigns left turn) same_ending ending state ≡ plan_of after on_got move state) }
{
    match ending {
        Ending::Fine(_) => match turn {
            Loop::Foreach {
                names,
                values,
                body,
            } => {
                let next = assign(alloc, left, names, values, body)?;
                Ok(next)
            }
            Loop::While { .. } | Loop::For { .. } => Ok(Next::Done(Ending::nothing(alloc))),
        },
        ending => Ok(Next::Done(ending)),
    }
}

// The body of a loop begins.
fn begin_body(turn: Loop) -> Result<Next, NoMemory>
    ensures { IfOk result (λ move. (state : Counts) → loops.bodily turn state ≡ plan_of after on_got move state) }
{
    let body = match &turn {
        Loop::While { body, .. } | Loop::For { body, .. } | Loop::Foreach { body, .. } => {
            body.copy()?
        }
    };
    Ok(Next::Call(None, Job::Script(body), Frame::LoopBody(turn)))
}

/// The test of a loop came to this.
pub(crate) fn after_test(alloc: Global, turn: Loop, ending: Ending) -> Result<Next, NoMemory>
    ensures { IfOk result (λ move. (state : Counts)
        → on_truth (loops.bodily turn) loops.done ending state ≡ plan_of after on_got move state) }
{
    match ending {
        Ending::Fine(value) => {
            if value.into_text(alloc)?.as_bytes() == b"1".as_slice() {
                let next = begin_body(turn)?;
                Ok(next)
            } else {
                Ok(Next::Done(Ending::nothing(alloc)))
            }
        }
        ending => Ok(Next::Done(ending)),
    }
}

/// The body of a loop ended so.
pub(crate) fn after_body(alloc: Global, turn: Loop, ending: Ending) -> Result<Next, NoMemory>
    ensures { IfOk result (λ move. (state : Counts)
        → loops.after_body (loops.following turn) ending state ≡ plan_of after on_got move state) }
{
    match ending {
        Ending::Fine(_) | Ending::Continued(..) => {
            let next = follow(turn)?;
            Ok(next)
        }
        Ending::Broke(..) => Ok(Next::Done(Ending::nothing(alloc))),
        ending => Ok(Next::Done(ending)),
    }
}

// What follows a body.
fn follow(turn: Loop) -> Result<Next, NoMemory>
    ensures { IfOk result (λ move. (state : Counts) → loops.following turn state ≡ plan_of after on_got move state) }
{
    match turn {
        Loop::For { test, next, body } => {
            let script = Job::Script(next.copy()?);
            Ok(Next::Call(
                None,
                script,
                Frame::LoopNext(Loop::For { test, next, body }),
            ))
        }
        turn => Ok(Next::Goto(Job::Loop(turn))),
    }
}

/// The script after a body ended so (for(n)).
pub(crate) fn after_next(alloc: Global, turn: Loop, ending: Ending) -> Next
    ensures { (state : Counts)
        → loops.after_next (Goes (jobs.Loop turn)) ending state ≡ plan_of after on_got result state }
{
    match ending {
        Ending::Fine(_) => Next::Goto(Job::Loop(turn)),
        Ending::Broke(..) => Next::Done(Ending::nothing(alloc)),
        ending => Next::Done(ending),
    }
}

/// The script before a loop ended so (for(n)).
pub(crate) fn after_start(turn: Loop, ending: Ending) -> Next
    ensures { (state : Counts)
        → on_fine (λ value. Goes (jobs.Loop turn)) same_ending ending state ≡ plan_of after on_got result state }
{
    match ending {
        Ending::Fine(_) => Next::Goto(Job::Loop(turn)),
        ending => Next::Done(ending),
    }
}
