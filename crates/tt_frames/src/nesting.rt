//! Nested evaluations.
ghost use Rattle.tt_frames.specs.declared.state.Counts.{Counts};
ghost use Rattle.std.specs.Prelude.{◌≡◌, IfOk};
ghost use Rattle.tt_frames.specs.Frames.{after, on_got};
ghost use Rattle.tt_outcomes.specs.Endings.{error_ending};
ghost use Rattle.tt_frames.specs.Nesting.{global, left, body_then, of_body, too_deep};
ghost use Rattle.tt_evaluation.specs.Frames.{plan_of};

use crate::job::{Asking, Frame, Job};
use crate::language::Next;
use crate::state::{DEEPEST, State};
use std::alloc::Global;
use tt_outcomes::{Body, Ending, Want};
use tt_text::{NoMemory, Text};

/// A body begins; past the limit it is left at once.
pub(crate) fn begin_nested(
    alloc: Global,
    body: Body,
    text: Text,
    state: &mut State,
) -> Result<Next, NoMemory>
    ensures { IfOk result (λ move. body_then body text state.old ≡ plan_of after on_got move state.new) }
{
    if state.counts.nested < DEEPEST {
        state.counts.nested += 1;
        Ok(Next::Call(None, Job::Script(text), Frame::Leaves(body)))
    } else {
        let ending = too_deep(alloc)?;
        Ok(Next::Ask(Want::Leave { body }, Asking::Ends(ending)))
    }
}

/// The error past the limit.
pub(crate) fn too_deep(alloc: Global) -> Result<Ending, NoMemory>
    ensures { IfOk result (λ ending. ending ≡ error_ending too_deep) }
{
    let ending = Ending::failed_with(alloc, b"too many nested evaluations (infinite loop?)")?;
    Ok(ending)
}

/// A body has ended, and is left.
pub(crate) fn leave(
    alloc: Global,
    body: Body,
    ending: Ending,
    state: &mut State,
) -> Result<Next, NoMemory>
    ensures { IfOk result (λ move. left body ending state.old ≡ plan_of after on_got move state.new) }
{
    state.counts.nested = state.counts.nested.saturating_sub(1);
    let ending = of_body(alloc, &body, ending)?;
    Ok(Next::Ask(Want::Leave { body }, Asking::Ends(ending)))
}

fn of_body(alloc: Global, body: &Body, ending: Ending) -> Result<Ending, NoMemory>
    ensures { IfOk result (λ made. made ≡ of_body body.now ending) }
{
    match body {
        Body::Procedure { name } => {
            let ending = ending.of_procedure(alloc, name.as_bytes())?;
            Ok(ending)
        }
        Body::Plain | Body::Level | Body::Global => Ok(ending),
    }
}

/// A script at global level begins.
pub(crate) fn begin_global(text: Text) -> Next
    ensures { (state : Counts) → global text state ≡ plan_of after on_got result state }
{
    Next::Ask(Want::Enter, Asking::Begins(Job::Nested(Body::Global, text)))
}
