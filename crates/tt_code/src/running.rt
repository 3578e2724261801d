//! Running code.
ghost use Rattle.std.specs.Prelude.{◌≡◌, ◌<◌, length, IfNone, IfOk, IfSome, OnOk};
ghost use Rattle.std.specs.Arc.{arc_value};
ghost use Rattle.tt_code.specs.Code.{needs_of, needs_from};
ghost use Rattle.tt_code.specs.Running.{halt_needs, needs, with_value};
ghost use Rattle.tt_code.specs.inside.Turns.{IsFurther, turn_needs};

use crate::code::{Code, Instruction};
use crate::quick::perform_quickly;
use crate::stack::Stack;
use crate::steps::{Halt, Step, perform};
use std::alloc::Global;
use std::sync::Arc;
use tt_text::NoMemory;
use tt_value::Value;

/// Code that has come to a place, with the values so far. A contract says what it needs.
#[derive(Debug, Drop)]
pub struct Running {
    alloc: Global,
    code: Arc<Code>,
    place: usize,
    values: Stack,
}

impl Running {
    /// Code that is begun. It takes no memory.
    pub fn new(alloc: Global, code: Arc<Code>) -> Self
        ensures begun { needs result ≡ needs_of (arc_value code) }
    {
        Running {
            alloc,
            code,
            place: 0,
            values: Stack::new(alloc),
        }
    }

    /// Begins other code, in the room that is there.
    pub fn restart(&mut self, code: Arc<Code>)
        ensures begun { needs self.new ≡ needs_of (arc_value code) }
    {
        self.code = code;
        self.place = 0;
        self.values.clear();
    }

    /// Goes on to where the code halts next. After an error and after values nothing more is said of it.
    ///
    /// `NoMemory` if memory is refused; then it is only fit to be restarted.
    #[tactic(auto, using(crate::proofs::Stepping::at_end))]
    pub fn advance(&mut self) -> Result<Halt, NoMemory>
        ensures halts { IfOk result (λ halt. needs self.old ≡ halt_needs halt (with_value self.new)) }
    {
        'steps: while self.place < self.code.instructions.len() {
            if let Some(place) = quick_turn(
                &self.code.instructions,
                self.place,
                &mut self.values,
            )? {
                self.place = place;
                continue 'steps;
            }
            let step = turn(
                self.alloc,
                &self.code.instructions,
                self.place,
                &mut self.values,
            )?;
            match step {
                Step::Goes(place) => self.place = place,
                Step::Halts(halt) => {
                    self.place += 1;
                    return Ok(halt);
                }
            }
        }
        Ok(Halt::Values(self.values.take()))
    }

    /// Gives the value at which it halted.
    ///
    /// `NoMemory` if memory is refused; then it is only fit to be restarted.
    pub fn give(&mut self, value: Value) -> Result<(), NoMemory>
        ensures given { OnOk result (needs self.new ≡ with_value self.old value) }
    {
        self.values.push(value)?;
        Ok(())
    }
}

/// The instruction at a place, if it is one of the quick ones: the place to which it goes.
fn quick_turn(
    instructions: &[Instruction],
    place: usize,
    values: &mut Stack,
) -> Result<Option<usize>, NoMemory>
    requires { place < length instructions.now }
    ensures same { IfOk result (λ gone. IfSome gone (λ to. needs_from instructions.now place values.old
        ≡ needs_from instructions.now to values.new)) }
    ensures further { IfOk result (λ gone. IfSome gone (λ to. place < to)) }
    ensures none { IfOk result (λ gone. IfNone gone (values.new ≡ values.old)) }
{
    match perform_quickly(&instructions[place], values)? {
        Some(count) => {
            let next = (place + 1).checked_add(count).ok_or(NoMemory)?;
            Ok(Some(next))
        }
        None => Ok(None),
    }
}

/// The instruction at a place: the place to which it goes, or where it halts.
#[inline(never)]
fn turn(
    alloc: Global,
    instructions: &[Instruction],
    place: usize,
    values: &mut Stack,
) -> Result<Step, NoMemory>
    requires { place < length instructions.now }
    ensures same { IfOk result (λ step. needs_from instructions.now place values.old
        ≡ turn_needs step instructions.now place values.new) }
    ensures further { IfOk result (λ step. IsFurther step place) }
{
    let step = perform(alloc, &instructions[place], values)?;
    match step {
        Step::Goes(count) => {
            let next = (place + 1).checked_add(count).ok_or(NoMemory)?;
            Ok(Step::Goes(next))
        }
        Step::Halts(halt) => Ok(Step::Halts(halt)),
    }
}
