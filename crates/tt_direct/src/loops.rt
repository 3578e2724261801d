//! Turns of loops: how they begin, and what follows each of their parts (while(n), for(n)).
ghost use Rattle.std.specs.Prelude.{◌≡◌, IfOk, bytes_eq, codes, length};
ghost use Rattle.tt_direct.specs.Leading.{Stays, TclStack};
ghost use Rattle.tt_direct.specs.inside.Coming.{CalledOn};
ghost use Rattle.tt_direct.specs.inside.Loops.{TurnedOn, loop_of};
ghost use Rattle.tt_evaluation.specs.Plans.{Goes};
ghost use Rattle.tt_frames.specs.Loops as plans;
ghost use Rattle.tt_frames.specs.Loops.{bodily, following, looping, turning};
ghost use Rattle.tt_frames.specs.Vocabulary.{TclPlan, Then};
ghost use Rattle.tt_frames.specs.declared.job.Frame.TheVariants as frames;
ghost use Rattle.tt_frames.specs.declared.job.Job.TheVariants as jobs;
ghost use Rattle.tt_frames.specs.declared.job.Loop.{Loop};
ghost use Rattle.tt_kept.specs.declared.kept.Kept.{Kept};

use crate::came::Came;
use crate::jobs::Next;
use crate::leaving::leave;
use crate::parts::Parts;
use std::alloc::Global;
use tt_calls::{Boxed, Request};
use tt_frames::{Asking, Frame, Job, Stack, Unit, Want};
use tt_outcomes::Ending;
use tt_text::NoMemory;
use tt_value::Value;

/// What comes of a part of a turn.
#[derive(Debug, Drop)]
pub(crate) enum Turned {
    /// The loop goes on.
    Goes,
    /// It goes no further here, and this came of it.
    Stops(Came),
}

/// A unit is spent for a turn, and a step for going over into it.
///
/// `NoMemory` if memory is refused, or all steps are taken.
pub(crate) fn begin(alloc: Global, stack: &mut Stack, parts: &Parts) -> Result<Turned, NoMemory>
    ensures begun { IfOk result (λ turned. (kept : Kept)
        → TurnedOn turned (turning (loop_of parts.now)) stack.new kept
        (looping (loop_of parts.now) stack.old.state) stack.old kept) }
{
    match stack.state.spend() {
        Unit::Past => {
            let ending = Ending::failed_with(alloc, b"unit limit reached")?;
            let came = Came::ended(alloc, ending)?;
            Ok(Turned::Stops(came))
        }
        Unit::Pauses => {
            let request = Boxed::new(alloc, Request::Pause)?;
            let asking = Asking::Begins(Job::Turn(parts.whole(alloc)?));
            let came = Came::moves(alloc, Next::Ask(Want::Ask { request }, asking))?;
            Ok(Turned::Stops(came))
        }
        Unit::Spent => {
            stack.steps = stack.steps.checked_sub(1).ok_or(NoMemory)?;
            Ok(Turned::Goes)
        }
    }
}

/// What follows the test of a turn. There were so many calls before it.
///
/// `NoMemory` if memory is refused.
pub(crate) fn after_test(
    alloc: Global,
    stack: &mut Stack,
    place: usize,
    parts: &Parts,
    came: Came,
) -> Result<Turned, NoMemory>
    ensures tested { IfOk result (λ turned. (kept held : Kept) (whole : TclPlan) (before : TclStack)
        → length before.calls.items ≡ place
        → CalledOn (frames.Test (loop_of parts.now)) came stack.old kept whole before held
        → TurnedOn turned (bodily (loop_of parts.now)) stack.new kept whole before held) }
{
    match came {
        Came::Fine(value) => {
            let holds = is_true(alloc, &value)?;
            if holds {
                Ok(Turned::Goes)
            } else {
                Ok(Turned::Stops(Came::Fine(Value::new(alloc))))
            }
        }
        Came::Ends(ending) => Ok(Turned::Stops(Came::Ends(ending))),
        Came::Moves(next) => {
            let frame = Frame::Test(parts.whole(alloc)?);
            let came = leave(stack, place, frame, next)?;
            Ok(Turned::Stops(came))
        }
    }
}

/// Whether the value of a condition is 1.
///
/// `NoMemory` if memory is refused.
pub(crate) fn is_true(alloc: Global, value: &Value) -> Result<bool, NoMemory>
    ensures holds { IfOk result (λ truth. truth ≡ bytes_eq value.now (codes "1")) }
{
    match value.number() {
        Some(1) => Ok(true),
        Some(0) => Ok(false),
        _ => Ok(value.to_text(alloc)?.as_bytes() == b"1".as_slice()),
    }
}

/// What follows the body of a turn. There were so many calls before it.
///
/// `NoMemory` if memory is refused.
pub(crate) fn after_body(
    alloc: Global,
    stack: &mut Stack,
    place: usize,
    parts: &Parts,
    came: Came,
) -> Result<Turned, NoMemory>
    ensures done { IfOk result (λ turned. (kept held : Kept) (whole : TclPlan) (before : TclStack)
        → length before.calls.items ≡ place
        → CalledOn (frames.LoopBody (loop_of parts.now)) came stack.old kept whole before held
        → TurnedOn turned (following (loop_of parts.now)) stack.new kept whole before held) }
{
    match came {
        Came::Fine(_) => Ok(Turned::Goes),
        Came::Ends(ending) => {
            let turned = body_ended(alloc, ending.into_inner())?;
            Ok(turned)
        }
        Came::Moves(next) => {
            let frame = Frame::LoopBody(parts.whole(alloc)?);
            let came = leave(stack, place, frame, next)?;
            Ok(Turned::Stops(came))
        }
    }
}

// The body ended so.
fn body_ended(alloc: Global, ending: Ending) -> Result<Turned, NoMemory>
    ensures { IfOk result (λ turned. (again : Then) (kept held : Kept) (whole : TclPlan) (stack before : TclStack)
        → Stays (plans.after_body again ending stack.state) stack kept whole before held
        → TurnedOn turned again stack kept whole before held) }
{
    match ending {
        Ending::Fine(_) => Ok(Turned::Goes),
        Ending::Continued(..) => Ok(Turned::Goes),
        Ending::Broke(..) => Ok(Turned::Stops(Came::Fine(Value::new(alloc)))),
        ending => {
            let came = Came::ended(alloc, ending)?;
            Ok(Turned::Stops(came))
        }
    }
}

/// What follows the script after a body (for(n)). There were so many calls before it.
///
/// `NoMemory` if memory is refused.
pub(crate) fn after_next(
    alloc: Global,
    stack: &mut Stack,
    place: usize,
    parts: &Parts,
    came: Came,
) -> Result<Turned, NoMemory>
    ensures done { IfOk result (λ turned. (kept held : Kept) (whole : TclPlan) (before : TclStack)
        → length before.calls.items ≡ place
        → CalledOn (frames.LoopNext (loop_of parts.now)) came stack.old kept whole before held
        → TurnedOn turned (Goes (jobs.Loop (loop_of parts.now))) stack.new kept whole before held) }
{
    match came {
        Came::Fine(_) => Ok(Turned::Goes),
        Came::Ends(ending) => {
            let turned = next_ended(alloc, ending.into_inner())?;
            Ok(turned)
        }
        Came::Moves(next) => {
            let frame = Frame::LoopNext(parts.whole(alloc)?);
            let came = leave(stack, place, frame, next)?;
            Ok(Turned::Stops(came))
        }
    }
}

// The script after a body ended so (for(n)).
fn next_ended(alloc: Global, ending: Ending) -> Result<Turned, NoMemory>
    ensures { IfOk result (λ turned. (again : Then) (kept held : Kept) (whole : TclPlan) (stack before : TclStack)
        → Stays (plans.after_next again ending stack.state) stack kept whole before held
        → TurnedOn turned again stack kept whole before held) }
{
    match ending {
        Ending::Fine(_) => Ok(Turned::Goes),
        Ending::Broke(..) => Ok(Turned::Stops(Came::Fine(Value::new(alloc)))),
        ending => {
            let came = Came::ended(alloc, ending)?;
            Ok(Turned::Stops(came))
        }
    }
}

/// The loop goes over into its next turn, for a step, unless it goes no further.
///
/// `NoMemory` if all steps are taken.
pub(crate) fn pass_over(stack: &mut Stack, turned: Turned) -> Result<Turned, NoMemory>
    ensures over { IfOk result (λ turn. (kept held : Kept) (whole : Loop) (all : TclPlan) (before : TclStack)
        → TurnedOn turned (Goes (jobs.Loop whole)) stack.old kept all before held
        → TurnedOn turn (looping whole) stack.new kept all before held) }
{
    match turned {
        Turned::Goes => {
            stack.steps = stack.steps.checked_sub(1).ok_or(NoMemory)?;
            Ok(Turned::Goes)
        }
        Turned::Stops(came) => Ok(Turned::Stops(came)),
    }
}
