//! What is done with an event.
ghost use Rattle.std.specs.Prelude.{◌≡◌, IfOk};
ghost use Rattle.tt_frames.specs.Events as events;
ghost use Rattle.tt_frames.specs.Frames.{after, on_got};
ghost use Rattle.tt_frames.specs.declared.state.Counts.{Counts};
ghost use Rattle.tt_evaluation.specs.Frames.{plan_of};

use crate::job::{Asking, Frame, Job};
use crate::language::Next;
use crate::state::State;
use crate::storing::{setting, telling};
use std::alloc::Global;
use tt_calls::{Boxed, Event, Reply, Request};
use tt_outcomes::{Body, Ending, Failure, Got, Want};
use tt_text::{NoMemory, Text};
use tt_value::Value;

/// An event is served.
pub(crate) fn begin_event(alloc: Global, event: Event, state: &mut State) -> Next
    ensures { events.happens event state.old ≡ plan_of after on_got result state.new }
{
    match event {
        Event::Script {
            n,
            script,
            answer,
            plain,
        } => Next::Call(
            None,
            Job::Global(script),
            Frame::Serves { n, answer, plain },
        ),
        Event::Timer { n, script } => Next::Call(
            None,
            Job::Global(script),
            Frame::Serves {
                n,
                answer: false,
                plain: false,
            },
        ),
        Event::SetVar { name, value } => Next::Ask(Want::Enter, Asking::Sets(name, value)),
        Event::Moved { .. } => Next::Done(Ending::nothing(alloc)),
        Event::Stop => {
            state.counts.stopped = true;
            Next::Done(Ending::nothing(alloc))
        }
    }
}

/// The script of an event ended so.
pub(crate) fn after_script(
    alloc: Global,
    n: u64,
    answer: bool,
    plain: bool,
    ending: Ending,
) -> Result<Next, NoMemory>
    ensures { IfOk result (λ move. (state : Counts)
        → events.script_served n answer plain ending state ≡ plan_of after on_got move state) }
{
    match ending.of_script(alloc)? {
        Ending::Failed(failure) => {
            let want = telling(alloc, failure.trace.text().copy()?)?;
            let asking = Asking::Told {
                n,
                answer,
                plain,
                failure,
            };
            Ok(Next::Ask(want, asking))
        }
        ending => {
            let next = hand_result(alloc, n, answer, ending)?;
            Ok(next)
        }
    }
}

// A result goes to its sender, if the sender waits for it.
fn hand_result(alloc: Global, n: u64, answer: bool, ending: Ending) -> Result<Next, NoMemory>
    ensures { IfOk result (λ move. (state : Counts)
        → events.result_handed n answer ending state ≡ plan_of after on_got move state) }
{
    if answer {
        let next = hand(alloc, delivery(alloc, n, ending)?)?;
        Ok(next)
    } else {
        Ok(Next::Done(Ending::nothing(alloc)))
    }
}

/// The error of an event's script was recorded: it goes to its sender, or is reported.
pub(crate) fn after_error(
    alloc: Global,
    n: u64,
    answer: bool,
    plain: bool,
    failure: Failure,
) -> Result<Next, NoMemory>
    ensures { IfOk result (λ move. (state : Counts)
        → events.handing (events.error_request n answer plain failure) state ≡ plan_of after on_got move state) }
{
    let request = error_request(alloc, n, answer, plain, failure)?;
    let next = hand(alloc, request)?;
    Ok(next)
}

fn error_request(
    alloc: Global,
    n: u64,
    answer: bool,
    plain: bool,
    failure: Failure,
) -> Result<Request, NoMemory>
    ensures { IfOk result (λ request. request ≡ events.error_request n answer plain failure) }
{
    if answer {
        let request = delivery(alloc, n, Ending::Failed(failure))?;
        Ok(request)
    } else {
        let trace = failure.trace.text().copy()?;
        Ok(Request::Report { trace, plain })
    }
}

fn delivery(alloc: Global, n: u64, ending: Ending) -> Result<Request, NoMemory>
    ensures { IfOk result (λ request. request ≡ events.delivery n ending) }
{
    let outcome = ending.into_outcome(alloc)?;
    Ok(Request::Deliver { n, outcome })
}

// Something is handed over.
fn hand(alloc: Global, request: Request) -> Result<Next, NoMemory>
    ensures { IfOk result (λ move. (state : Counts) → events.handing request state ≡ plan_of after on_got move state) }
{
    let request = Boxed::new(alloc, request)?;
    Ok(Next::Ask(Want::Ask { request }, Asking::Handed))
}

/// What was handed over is replied to: the thread may be to stop.
pub(crate) fn after_handed(alloc: Global, got: &Got, state: &mut State) -> Next
    ensures { events.after_handing got.now state.old ≡ plan_of after on_got result state.new }
{
    if says_stop(got) {
        state.counts.stopped = true;
    }
    Next::Done(Ending::nothing(alloc))
}

fn says_stop(got: &Got) -> bool
    ensures { result ≡ events.says_stop got.now }
{
    match got {
        Got::Reply(Reply::Served(stops)) => *stops,
        _ => false,
    }
}

/// A global variable is set at the global level.
pub(crate) fn set_global(alloc: Global, name: Text, value: Text) -> Result<Next, NoMemory>
    ensures { IfOk result (λ move. (state : Counts) → events.sets name value state ≡ plan_of after on_got move state) }
{
    let want = setting(alloc, name, Value::from_text(value))?;
    Ok(Next::Ask(want, Asking::Wanted(Frame::Sets)))
}

/// A global variable was set: the global level is left.
pub(crate) fn after_set(ending: Ending) -> Next
    ensures { (state : Counts) → events.after_setting ending state ≡ plan_of after on_got result state }
{
    Next::Ask(Want::Leave { body: Body::Global }, Asking::Left(ending))
}

/// The global level was left after a variable was set there: an error is reported.
pub(crate) fn after_left(alloc: Global, ending: Ending) -> Result<Next, NoMemory>
    ensures { IfOk result (λ move. (state : Counts) →
        events.set_reported ending state ≡ plan_of after on_got move state) }
{
    match ending {
        Ending::Failed(failure) => {
            let request = Request::Report {
                trace: failure.message,
                plain: false,
            };
            let next = hand(alloc, request)?;
            Ok(next)
        }
        _ => Ok(Next::Done(Ending::nothing(alloc))),
    }
}
