ghost use Rattle.std.specs.Prelude.{◌≡◌, List, [], ◌∷◌, IfOk, IfSome, IsTrue, OnOk, is_some};
ghost use Rattle.tt_evaluation.specs.Evaluation.{eval};
ghost use Rattle.tt_evaluation.specs.Machines.{end_of_machine, has_ended, later, serving, waits};
ghost use Rattle.tt_evaluation.specs.Plans.{Stop};

use crate::{Halt, Language, STEPS, Stack, begin, is_waiting, turn};
use std::alloc::Global;
use tt_text::NoMemory;

/// A stack that keeps where it halted: an interpreter of a language. It stops at each thing that it wants, and goes
/// on with the answer.
#[derive(Debug, Drop)]
pub struct Machine<Want, Outcome, State, Frame, Asking> {
    stack: Stack<State, Frame, Asking>,
    halt: Halt<Want, Outcome>,
}

/// A machine that has this job to do, from this state on, at the first thing that it wants.
///
/// `NoMemory` if memory is refused, or all steps are taken.
pub fn start<L: Language>(
    alloc: Global,
    job: L::Job,
    state: L::State,
) -> Result<Machine<L::Want, L::Outcome, L::State, L::Frame, L::Asking>, NoMemory>
    ensures started { IfOk result (λ machine. (answers : List L.Got)
        → later L.plan L.after L.on_got machine answers
        ≡ eval L.plan job state STEPS answers) }
{
    let (stack, halt) = begin::<L>(alloc, job, state)?;
    Ok(Machine { stack, halt })
}

/// Goes on with the answer, to the next thing that the machine wants or to its end.
///
/// `NoMemory` if memory is refused, or all steps are taken; then the machine is only fit to be dropped.
pub fn resume<L: Language>(
    alloc: Global,
    machine: &mut Machine<L::Want, L::Outcome, L::State, L::Frame, L::Asking>,
    got: L::Got,
) -> Result<(), NoMemory>
    requires asked { IsTrue (waits machine.old) }
    ensures resumed { OnOk result ((answers : List L.Got)
        → later L.plan L.after L.on_got machine.new answers
        ≡ later L.plan L.after L.on_got machine.old (got ∷ answers)) }
{
    machine.halt = turn::<L>(alloc, &mut machine.stack, got)?;
    Ok(())
}

/// What the machine wants; `None` exactly if it waits for nothing. It takes no memory.
pub fn request<L: Language>(
    machine: &Machine<L::Want, L::Outcome, L::State, L::Frame, L::Asking>,
) -> Option<&L::Want>
    ensures asked { is_some result ≡ waits machine.now }
    ensures wanted { IfSome result (λ want.
        later L.plan L.after L.on_got machine.now [] ≡ Stop want.now (serving machine.now)) }
{
    if !is_waiting(&machine.stack) {
        return None;
    }
    match &machine.halt {
        Halt::Wants(want) => Some(want),
        Halt::Ended(_) => None,
    }
}

/// What all came to; `None` exactly if it isn't evaluated yet. It takes no memory.
pub fn outcome<L: Language>(
    machine: &Machine<L::Want, L::Outcome, L::State, L::Frame, L::Asking>,
) -> Option<&L::Outcome>
    ensures ended { is_some result ≡ has_ended machine.now }
    ensures finished { IfSome result (λ outcome. (answers : List L.Got)
        → later L.plan L.after L.on_got machine.now answers
        ≡ end_of_machine machine.now outcome.now answers) }
{
    match &machine.halt {
        Halt::Wants(_) => None,
        Halt::Ended(outcome) => Some(outcome),
    }
}
