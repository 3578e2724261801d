//! Event loops: events are taken, one after the other.
ghost use Rattle.std.specs.Prelude.{◌≡◌, IfOk};
ghost use Rattle.tt_frames.specs.Asking.{serving};
ghost use Rattle.tt_frames.specs.Events as events;
ghost use Rattle.tt_frames.specs.Frames.{after, on_got};
ghost use Rattle.tt_frames.specs.declared.state.Counts.{Counts};
ghost use Rattle.tt_evaluation.specs.Frames.{plan_of};

use crate::job::{Asking, Frame, Job, Until};
use crate::language::Next;
use crate::state::{State, Unit};
use crate::waiting::{begin_waiting, end_waiting, look_of};
use std::alloc::Global;
use tt_calls::{Boxed, Event, Reply, Request};
use tt_commands::Goal;
use tt_outcomes::{Ending, Got, Want};
use tt_text::NoMemory;

/// A command begins that serves events up to its goal.
pub(crate) fn begin_serving(
    alloc: Global,
    request: Boxed<Request>,
    goal: Goal,
) -> Result<Next, NoMemory>
    ensures { IfOk result (λ move. (state : Counts)
        → serving request goal state ≡ plan_of after on_got move state) }
{
    match goal {
        Goal::Written(name) => {
            let rounds = Job::Serve(Until::Written);
            Ok(Next::Ask(Want::Watch { name }, Asking::Begins(rounds)))
        }
        Goal::Idle => Ok(Next::Goto(Job::Serve(Until::Idle))),
        Goal::Stopped => Ok(Next::Goto(Job::Serve(Until::Stopped))),
        Goal::Pool { store } => {
            let next = begin_waiting(alloc, request.into_inner(), store)?;
            Ok(next)
        }
    }
}

/// A round begins: the goal is tested, and where it isn't met the next event is asked for.
pub(crate) fn begin_round(alloc: Global, goal: Until, state: &mut State) -> Result<Next, NoMemory>
    ensures { IfOk result (λ move. events.round goal state.old ≡ plan_of after on_got move state.new) }
{
    match goal {
        Until::Written => Ok(Next::Ask(Want::Seen, Asking::Seen)),
        goal => {
            let next = go_on(alloc, goal, state)?;
            Ok(next)
        }
    }
}

/// The variable that is watched was written, or not.
pub(crate) fn after_seen(alloc: Global, ending: Ending, state: &mut State) -> Result<Next, NoMemory>
    ensures { IfOk result (λ move. events.after_look ending state.old ≡ plan_of after on_got move state.new) }
{
    if ending.into_value().into_text(alloc)?.as_bytes() == b"1".as_slice() {
        Ok(end(Until::Written, Ending::nothing(alloc)))
    } else {
        let next = go_on(alloc, Until::Written, state)?;
        Ok(next)
    }
}

// The goal isn't met.
fn go_on(alloc: Global, goal: Until, state: &mut State) -> Result<Next, NoMemory>
    ensures { IfOk result (λ move. events.goal_ahead goal state.old ≡ plan_of after on_got move state.new) }
{
    if state.counts.stopped {
        let ending = stopping(alloc, &goal)?;
        Ok(end(goal, ending))
    } else {
        let next = spend(alloc, goal, state)?;
        Ok(next)
    }
}

// A unit is spent for the next event.
fn spend(alloc: Global, goal: Until, state: &mut State) -> Result<Next, NoMemory>
    ensures { IfOk result (λ move. events.next_event goal state.old ≡ plan_of after on_got move state.new) }
{
    match state.spend() {
        Unit::Past => {
            let ending = Ending::failed_with(alloc, b"unit limit reached")?;
            Ok(end(goal, ending))
        }
        Unit::Pauses => {
            let request = Boxed::new(alloc, Request::Pause)?;
            Ok(Next::Ask(Want::Ask { request }, Asking::Begins(Job::Take(goal))))
        }
        Unit::Spent => Ok(Next::Goto(Job::Take(goal))),
    }
}

// A loop ends so.
fn end(goal: Until, ending: Ending) -> Next
    ensures { (state : Counts) → events.over goal ending state ≡ plan_of after on_got result state }
{
    match goal {
        Until::Written => Next::Ask(Want::Unwatch, Asking::Ends(ending)),
        Until::Idle | Until::Stopped | Until::Jobs(_) => Next::Done(ending),
    }
}

// How a loop ends if the thread is to stop.
fn stopping(alloc: Global, goal: &Until) -> Result<Ending, NoMemory>
    ensures { IfOk result (λ ending. ending ≡ events.stopping goal.now) }
{
    match goal {
        Until::Written | Until::Jobs(_) => {
            let ending = Ending::failed_with(alloc, b"thread is stopping")?;
            Ok(ending)
        }
        Until::Idle | Until::Stopped => Ok(Ending::nothing(alloc)),
    }
}

/// An event is asked for.
pub(crate) fn ask_event(alloc: Global, goal: Until) -> Result<Next, NoMemory>
    ensures { IfOk result (λ move. (state : Counts) → events.taking goal state ≡ plan_of after on_got move state) }
{
    let request = Boxed::new(alloc, event_request(alloc, &goal)?)?;
    Ok(Next::Ask(Want::Ask { request }, Asking::Taken(goal)))
}

fn event_request(alloc: Global, goal: &Until) -> Result<Request, NoMemory>
    ensures { IfOk result (λ request. request ≡ events.event_request goal.now) }
{
    match goal {
        Until::Idle => Ok(Request::TakeReady),
        Until::Written | Until::Stopped => Ok(Request::Take),
        Until::Jobs(wait) => {
            let request = look_of(alloc, wait.get())?;
            Ok(request)
        }
    }
}

/// An event was taken, or there was none.
pub(crate) fn after_taken(alloc: Global, goal: Until, got: Got) -> Result<Next, NoMemory>
    ensures { IfOk result (λ move. (state : Counts)
        → events.event_then goal got state ≡ plan_of after on_got move state) }
{
    match got {
        Got::Reply(Reply::Event(event)) => {
            let post = post_of(&event);
            Ok(Next::Call(post, Job::Event(event), Frame::Rounds(goal)))
        }
        Got::Reply(reply) => {
            let next = without_event(alloc, goal, reply)?;
            Ok(next)
        }
        _ => Ok(end(goal, Ending::nothing(alloc))),
    }
}

// There was no event.
fn without_event(alloc: Global, goal: Until, reply: Reply) -> Result<Next, NoMemory>
    ensures { IfOk result (λ move. (state : Counts)
        → events.without_event goal reply state ≡ plan_of after on_got move state) }
{
    match goal {
        Until::Jobs(wait) => {
            let next = end_waiting(alloc, wait.into_inner(), reply)?;
            Ok(next)
        }
        goal => Ok(end(goal, Ending::nothing(alloc))),
    }
}

// The post that is served with an event.
fn post_of(event: &Event) -> Option<u64>
    ensures { result ≡ events.post_of event.now }
{
    match event {
        Event::Script { n, answer, .. } => answered_post(*n, *answer),
        Event::SetVar { .. } | Event::Moved { .. } | Event::Timer { .. } | Event::Stop => None,
    }
}

fn answered_post(n: u64, answer: bool) -> Option<u64>
    ensures { result ≡ events.answered_post n answer }
{
    if answer { Some(n) } else { None }
}
