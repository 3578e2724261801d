//! Moves that are made in place.
ghost use Rattle.std.specs.Prelude.{◌≡◌, IfOk, length};
ghost use Rattle.tt_direct.specs.Leading.{TclStack};
ghost use Rattle.tt_direct.specs.inside.Coming.{CalledOn, MovedOn};
ghost use Rattle.tt_direct.specs.Leading.{GoesOn, Stays};
ghost use Rattle.tt_evaluation.specs.Frames.{plan_of};
ghost use Rattle.tt_evaluation.specs.Plans.{Asks, Goes};
ghost use Rattle.tt_frames.specs.Frames.{after, on_got};
ghost use Rattle.tt_frames.specs.Vocabulary.{TclPlan};
ghost use Rattle.tt_kept.specs.Answering.{Answers};
ghost use Rattle.tt_kept.specs.declared.kept.Kept.{Kept};

use crate::came::Came;
use crate::jobs::Next;
use crate::leaving::leave;
use std::alloc::Global;
use tt_evaluation::Language;
use tt_frames::{Asking, Frame, Got, Job, Loop, Stack, State, Tcl, Want};
use tt_kept::Kept;
use tt_outcomes::Ending;
use tt_text::NoMemory;

/// What comes of a move.
#[derive(Debug, Drop)]
pub(crate) enum Moved {
    /// Another move.
    On(Next),
    /// This came of it all.
    Over(Came),
}

/// Something is wanted: what is kept answers it, unless it is a request.
///
/// `NoMemory` if memory is refused.
pub(crate) fn ask(
    alloc: Global,
    kept: &mut Kept,
    stack: &mut Stack,
    want: Want,
    asking: Asking,
) -> Result<Moved, NoMemory>
    ensures asked { IfOk result (λ moved. MovedOn moved stack.new kept.new
        (Asks want stack.old.state (on_got asking)) stack.old kept.old) }
{
    if is_request(&want) {
        let came = Came::moves(alloc, Next::Ask(want, asking))?;
        return Ok(Moved::Over(came));
    }
    let next = answer(alloc, kept, &mut stack.state, want, asking)?;
    Ok(Moved::On(next))
}

// What is kept answers, and the asking goes on with that.
fn answer(
    alloc: Global,
    kept: &mut Kept,
    state: &mut State,
    want: Want,
    asking: Asking,
) -> Result<Next, NoMemory>
    ensures { IfOk result (λ next. GoesOn (plan_of after on_got next state.new) kept.new
        (Asks want state.old (on_got asking)) kept.old) }
{
    let (got, asking) = get(alloc, kept, want, asking)?;
    let next = Tcl::take(alloc, asking, got, state)?;
    Ok(next)
}

// What is got for what is wanted, beside what waits for it: a type parameter, whose drop is one call.
fn get<T: Drop>(alloc: Global, kept: &mut Kept, want: Want, waits: T) -> Result<(Got, T), NoMemory>
    ensures got { IfOk result (λ both. Answers want kept.old both.0 kept.new) }
    ensures waits { IfOk result (λ both. both.1 ≡ waits) }
{
    let got = kept.answer(alloc, want)?;
    Ok((got, waits))
}

fn is_request(want: &Want) -> bool {
    matches!(want, Want::Ask { .. })
}

/// A job that was called came to this, and its frame goes on. There were so many calls before it.
///
/// `NoMemory` if memory is refused.
pub(crate) fn come_back(
    alloc: Global,
    stack: &mut Stack,
    place: usize,
    frame: Frame,
    came: Came,
) -> Result<Moved, NoMemory>
    ensures came_back { IfOk result (λ moved. (kept held : Kept) (whole : TclPlan) (before : TclStack)
        → length before.calls.items ≡ place
        → CalledOn frame came stack.old kept whole before held
        → MovedOn moved stack.new kept whole before held) }
{
    match came {
        Came::Fine(value) => {
            let next = Tcl::go_on(alloc, frame, Ending::Fine(value), &mut stack.state)?;
            Ok(Moved::On(next))
        }
        Came::Ends(ending) => {
            let next = Tcl::go_on(alloc, frame, ending.into_inner(), &mut stack.state)?;
            Ok(Moved::On(next))
        }
        Came::Moves(next) => {
            let came = leave(stack, place, frame, next)?;
            Ok(Moved::Over(came))
        }
    }
}

/// Whether a job is one of many that go over into each other, so that it begins on the level where it is.
pub(crate) fn is_round(job: &Job) -> bool {
    matches!(job, Job::Turn(_) | Job::Loop(Loop::Foreach { .. }))
}

/// A job begins that is gone over into, for a step.
///
/// `NoMemory` if memory is refused, or all steps are taken.
pub(crate) fn begin_round(alloc: Global, stack: &mut Stack, job: Job) -> Result<Next, NoMemory>
    ensures begun { IfOk result (λ next. (kept : Kept)
        → Stays (plan_of after on_got next stack.new.state) stack.new kept
        (Goes job stack.old.state) stack.old kept) }
{
    stack.steps = stack.steps.checked_sub(1).ok_or(NoMemory)?;
    let next = Tcl::begin(alloc, job, &mut stack.state)?;
    Ok(next)
}
