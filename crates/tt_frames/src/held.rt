//! Scripts that are evaluated while an array or a mutex is held.
ghost use Rattle.std.specs.Prelude.{◌≡◌, IfOk};
ghost use Rattle.tt_frames.specs.Frames.{after, on_got};
ghost use Rattle.tt_frames.specs.Held.{script_in_hold, end_of_hold, letting_go, release_of};
ghost use Rattle.tt_frames.specs.declared.state.Counts.{Counts};
ghost use Rattle.tt_evaluation.specs.Frames.{plan_of};

use crate::job::{Asking, Frame, Hold, Job};
use crate::language::Next;
use crate::nesting::too_deep;
use crate::state::{DEEPEST, State};
use std::alloc::Global;
use tt_calls::{Boxed, Family, LockCall, Request, TsvCall};
use tt_outcomes::{Ending, Want};
use tt_text::{NoMemory, Text};

/// A held script begins; past the limit its hold is ended at once.
pub(crate) fn begin_held(
    alloc: Global,
    hold: Hold,
    text: Text,
    state: &mut State,
) -> Result<Next, NoMemory>
    ensures { IfOk result (λ move. script_in_hold hold text state.old ≡ plan_of after on_got move state.new) }
{
    if state.counts.nested < DEEPEST {
        state.counts.nested += 1;
        Ok(Next::Call(None, Job::Script(text), Frame::Held(hold)))
    } else {
        let ending = too_deep(alloc)?;
        let next = end_hold(alloc, hold, ending)?;
        Ok(next)
    }
}

/// A held script ended so: its hold is ended.
pub(crate) fn after_held(
    alloc: Global,
    hold: Hold,
    ending: Ending,
    state: &mut State,
) -> Result<Next, NoMemory>
    ensures { IfOk result (λ move. end_of_hold hold ending state.old ≡ plan_of after on_got move state.new) }
{
    state.counts.nested = state.counts.nested.saturating_sub(1);
    let next = end_hold(alloc, hold, ending)?;
    Ok(next)
}

// A hold is ended, and then that is the ending.
fn end_hold(alloc: Global, hold: Hold, ending: Ending) -> Result<Next, NoMemory>
    ensures { IfOk result (λ move. (state : Counts)
        → letting_go hold ending state ≡ plan_of after on_got move state) }
{
    let request = Boxed::new(alloc, release_of(alloc, hold)?)?;
    Ok(Next::Ask(Want::Ask { request }, Asking::Ends(ending)))
}

// What ends a hold.
fn release_of(alloc: Global, hold: Hold) -> Result<Request, NoMemory>
    ensures { IfOk result (λ request. request ≡ release_of hold) }
{
    match hold {
        Hold::Array(array) => Ok(Request::Tsv(Boxed::new(alloc, TsvCall::Unhold { array })?)),
        Hold::Mutex(id) => {
            let family = Family::Mutex;
            Ok(Request::Lock(Boxed::new(alloc, LockCall::Unlock { family, id })?))
        }
    }
}
