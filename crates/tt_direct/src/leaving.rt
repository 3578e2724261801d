//! Frames of an evaluation that goes no further here.
ghost use Rattle.std.specs.Prelude.{IfOk, List, length, ◌≡◌, ◌∷◌, OnOk, insert};
ghost use Rattle.tt_direct.specs.Leading.{TclStack};
ghost use Rattle.tt_direct.specs.inside.Coming.{CameOn};
ghost use Rattle.tt_direct.specs.Leading.{Owes, plain_call};
ghost use Rattle.tt_evaluation.specs.Frames.{plan_of};
ghost use Rattle.tt_frames.specs.Frames.{after, on_got};
ghost use Rattle.tt_frames.specs.Vocabulary.{TclPlan};
ghost use Rattle.tt_kept.specs.declared.kept.Kept.{Kept};

use crate::came::Came;
use crate::jobs::Next;
use tt_calls::Boxed;
use tt_evaluation::Pending;
use tt_frames::{Frame, Stack};
use tt_text::NoMemory;

/// A job that was called goes no further here: its frame is left below what it has left itself, and this move comes
/// next. There were so many calls before it.
///
/// `NoMemory` if memory is refused, or there are fewer calls.
pub(crate) fn leave(
    stack: &mut Stack,
    place: usize,
    frame: Frame,
    next: Boxed<Next>,
) -> Result<Came, NoMemory>
    ensures left { IfOk result (λ came. (kept held : Kept) (whole : TclPlan) (before : TclStack)
        → length before.calls.items ≡ place
        → Owes frame (plan_of after on_got next stack.old.state) stack.old kept whole before held
        → CameOn came stack.new kept whole before held) }
{
    put(stack, place, frame)?;
    Ok(Came::Moves(next))
}

// The frame is put below the calls from this place on.
fn put(stack: &mut Stack, place: usize, frame: Frame) -> Result<(), NoMemory>
    ensures calls { OnOk result (stack.new.calls.items ≡ insert stack.old.calls.items place (plain_call frame)) }
    ensures state { stack.new.state ≡ stack.old.state }
    ensures steps { stack.new.steps ≡ stack.old.steps }
{
    if place > stack.calls.len() {
        return Err(NoMemory);
    }
    let call = Pending {
        frame,
        serves: None,
    };
    stack.calls.insert(place, call)?;
    Ok(())
}
