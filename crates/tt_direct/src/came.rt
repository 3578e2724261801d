//! What comes of an evaluation in place.
ghost use Rattle.std.specs.Prelude.{◌≡◌, IfOk, IsTrue};
ghost use Rattle.tt_direct.specs.inside.Coming.{is_plain, then_came};
ghost use Rattle.tt_evaluation.specs.Frames.{plan_of};
ghost use Rattle.tt_frames.specs.Frames.{after, on_got};
ghost use Rattle.tt_frames.specs.Vocabulary.{same_ending};
ghost use Rattle.tt_frames.specs.declared.state.Counts.{Counts};

use crate::jobs::Next;
use std::alloc::Global;
use tt_calls::Boxed;
use tt_outcomes::Ending;
use tt_text::NoMemory;
use tt_value::Value;

/// What comes of an evaluation in place. What is large is behind a pointer, since results are frequent.
#[derive(Debug, Drop)]
pub(crate) enum Came {
    /// It ended with this result.
    Fine(Value),
    /// It ended so, and not with a result.
    Ends(Boxed<Ending>),
    /// It goes no further here, and this move comes next. It has left calls on the stack for it.
    Moves(Boxed<Next>),
}

impl Came {
    /// It ended so.
    ///
    /// `NoMemory` if memory is refused.
    pub(crate) fn ended(alloc: Global, ending: Ending) -> Result<Self, NoMemory>
        ensures ended { IfOk result (λ came. (state : Counts) → same_ending ending state ≡ then_came came state) }
        ensures plain { IfOk result (λ came. IsTrue (is_plain came)) }
    {
        match ending {
            Ending::Fine(value) => Ok(Came::Fine(value)),
            ending => Ok(Came::Ends(Boxed::new(alloc, ending)?)),
        }
    }

    /// This move comes next.
    ///
    /// `NoMemory` if memory is refused.
    pub(crate) fn moves(alloc: Global, next: Next) -> Result<Self, NoMemory>
        ensures moves { IfOk result (λ came. (state : Counts)
            → plan_of after on_got next state ≡ then_came came state) }
        ensures plain { IfOk result (λ came. IsTrue (is_plain came)) }
    {
        Ok(Came::Moves(Boxed::new(alloc, next)?))
    }

    /// The move that comes next.
    pub(crate) fn into_next(self) -> Next
        ensures next { (state : Counts) → then_came self state ≡ plan_of after on_got result state }
    {
        match self {
            Came::Fine(value) => Next::Done(Ending::Fine(value)),
            Came::Ends(ending) => Next::Done(ending.into_inner()),
            Came::Moves(next) => next.into_inner(),
        }
    }
}
