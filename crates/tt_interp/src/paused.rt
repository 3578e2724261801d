ghost use Rattle.std.specs.Prelude.{◌≡◌, IfOk, IsTrue};
ghost use Rattle.tt_evaluation.specs.Frames.{is_waiting};
ghost use Rattle.tt_hosting.specs.Hosting.{asks};
ghost use Rattle.tt_interp.specs.Interps as interps;
ghost use Rattle.tt_interp.specs.declared.interp.Standing.TheVariants as standing;
ghost use Rattle.tt_kept.specs.Leading.{LeadsTo};

use crate::hosted::{Direct, Reached};
use std::alloc::Global;
use std::marker::Model;
use tt_calls::Start;
use tt_evaluation::STEPS;
use tt_frames::{Got, Job, Stack, State, Tcl};
use tt_kept::Kept;
use tt_text::NoMemory;

/// What a thread has begun to evaluate, behind a pointer, so that what holds it is small. Contracts see the stack.
#[derive(Debug, Drop)]
pub struct Paused {
    stack: Box<Stack>,
}

impl Model for Paused {
    ghost use Rattle.tt_frames.specs.declared.job.Asking.{Asking};
    ghost use Rattle.tt_frames.specs.declared.job.Frame.{Frame};
    ghost use Rattle.tt_frames.specs.declared.state.Counts.{Counts};
    ghost use Rattle.tt_evaluation.specs.declared.stack.Stack.{Stack};

    ghost Value = { Stack Counts Frame Asking };

    ghost view = { λ paused. paused.stack.value };
}

impl Paused {
    /// The stack of a thread of this number that begins so and may spend so many units, and what it reaches first.
    ///
    /// `NoMemory` if memory is refused.
    pub(crate) fn begin(
        alloc: Global,
        kept: &mut Kept,
        start: Start,
        me: u32,
        limit: u64,
    ) -> Result<(Self, Reached), NoMemory>
        ensures leads { IfOk result (λ begun. LeadsTo
            (interps.from_reached begun.1 begun.0) kept.new
            (interps.coming (standing.Fresh start me limit)) kept.old) }
        ensures waiting { IfOk result (λ begun. asks begun.1 ≡ is_waiting begun.0) }
    {
        let state = State::new(alloc, me, limit)?;
        let stack = Stack {
            state,
            steps: STEPS,
            calls: Vec::new(alloc),
            asking: None,
        };
        let mut stack = Box::new(alloc, stack)?;
        let reached = tt_hosting::begin::<Tcl, Direct>(alloc, kept, &mut stack, Job::Start(start))?;
        Ok((Paused { stack }, reached))
    }

    /// Goes on with the answer to what the stack wants, and answers what it reaches next.
    ///
    /// `NoMemory` if memory is refused; then the stack is only fit to be dropped.
    pub(crate) fn turn(
        &mut self,
        alloc: Global,
        kept: &mut Kept,
        got: Got,
    ) -> Result<Reached, NoMemory>
        requires asked { IsTrue (is_waiting self.old) }
        ensures leads { IfOk result (λ reached. LeadsTo
            (interps.from_reached reached self.new) kept.new (interps.after_got self.old got) kept.old) }
        ensures waiting { IfOk result (λ reached. asks reached ≡ is_waiting self.new) }
    {
        let reached = tt_hosting::turn::<Tcl, Direct>(alloc, kept, &mut self.stack, got)?;
        Ok(reached)
    }

    /// How many units the thread has spent.
    pub(crate) fn units(&self) -> u64
        ensures units { result ≡ self.now.state.units }
    {
        self.stack.state.units()
    }
}
