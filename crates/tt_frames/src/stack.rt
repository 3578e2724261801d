ghost use Rattle.std.specs.Prelude.{◌≡◌, List, IfOk, IsTrue};
ghost use Rattle.tt_frames.specs.Frames.{after, on_got};
ghost use Rattle.tt_frames.specs.Tcl.{plan};
ghost use Rattle.tt_frames.specs.Units.{fresh};
ghost use Rattle.tt_frames.specs.declared.job.Job.TheVariants as jobs;
ghost use Rattle.tt_evaluation.specs.Evaluation.{eval};
ghost use Rattle.tt_evaluation.specs.Frames.{after_answer, from_halt, is_waiting, wants};
ghost use Rattle.tt_outcomes.specs.declared.got.Got.{Got};

use crate::job::{Asking, Frame, Job};
use crate::language::Tcl;
use crate::state::State;
use std::alloc::Global;
use tt_calls::Start;
use tt_evaluation::{Halt, STEPS};
use tt_outcomes::{Ending, Got, Want};
use tt_text::NoMemory;

/// What a thread has begun to evaluate. A contract says of it what it comes to after further answers.
pub type Stack = tt_evaluation::Stack<State, Frame, Asking>;

/// The stack of a thread of this number that begins so and may spend so many units, and where it halts first.
///
/// `NoMemory` if memory is refused.
pub fn begin(
    alloc: Global,
    start: Start,
    me: u32,
    limit: u64,
) -> Result<(Stack, Halt<Want, Ending>), NoMemory>
    ensures begun { IfOk result (λ begun. (gots : List Got)
        → from_halt plan after on_got begun.1 begun.0 gots
        ≡ eval plan (jobs.Start start) (fresh me limit) STEPS gots) }
    ensures waiting { IfOk result (λ begun. wants begun.1 ≡ is_waiting begun.0) }
{
    let state = State::new(alloc, me, limit)?;
    let begun = tt_evaluation::begin::<Tcl>(alloc, Job::Start(start), state)?;
    Ok(begun)
}

/// Goes on with the answer to what the stack wants, and answers where it halts next.
///
/// `NoMemory` if memory is refused; then the stack is only fit to be dropped.
pub fn turn(alloc: Global, stack: &mut Stack, got: Got) -> Result<Halt<Want, Ending>, NoMemory>
    requires asked { IsTrue (is_waiting stack.old) }
    ensures turned { IfOk result (λ halt. (gots : List Got)
        → from_halt plan after on_got halt stack.new gots
        ≡ after_answer plan after on_got stack.old got gots) }
    ensures waiting { IfOk result (λ halt. wants halt ≡ is_waiting stack.new) }
{
    let halt = tt_evaluation::turn::<Tcl>(alloc, stack, got)?;
    Ok(halt)
}
