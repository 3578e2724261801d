//! Scripts and commands (Tcl(n)).
ghost use Rattle.tt_frames.specs.Units.{past_limit, spending};
ghost use Rattle.tt_outcomes.specs.Places.{in_command};
ghost use Rattle.tt_outcomes.specs.Endings.{error_ending};
ghost use Rattle.tt_frames.specs.declared.state.Counts.{Counts};
ghost use Rattle.tt_evaluation.specs.declared.language.Move.TheVariants as moves;
ghost use Rattle.tt_frames.specs.declared.job.Frame.TheVariants as frames;
ghost use Rattle.tt_frames.specs.declared.job.Asking.TheVariants as askings;
ghost use Rattle.tt_outcomes.specs.declared.want.Want.TheVariants as wants;
ghost use Rattle.std.specs.Prelude.{◌≡◌, IfOk, drop};
ghost use Rattle.std.specs.Arc.{arc_value};
ghost use Rattle.tt_frames.specs.Frames.{after, command_ended, command_given, command_needs, on_got, steps_from};
ghost use Rattle.tt_frames.specs.Programs.{end_of, start_of, steps_of};
ghost use Rattle.tt_frames.specs.Scripts.{commands, command_then, script};
ghost use Rattle.tt_evaluation.specs.Frames.{plan_of};

use crate::job::{Asking, CommandFrame, Frame, Job};
use crate::language::Next;
use crate::program::{Program, Step};
use crate::state::{State, Unit};
use std::alloc::Global;
use std::sync::Arc;
use tt_calls::{Boxed, Request};
use tt_code::{Halt, Running};
use tt_outcomes::{Ending, Got, Want};
use tt_text::{NoMemory, Text};
use tt_value::{Value, Values};

/// A script begins.
pub(crate) fn begin_script(alloc: Global, text: Text, state: &mut State) -> Result<Next, NoMemory>
    ensures { IfOk result (λ move. script text state.old ≡ plan_of after on_got move state.new) }
{
    let program = state.script(text)?;
    let next = next_command(alloc, program, 0, Value::new(alloc), state)?;
    Ok(next)
}

// The command of this number, after one with this result.
fn next_command(
    alloc: Global,
    program: Arc<Program>,
    at: usize,
    last: Value,
    state: &mut State,
) -> Result<Next, NoMemory>
    ensures { IfOk result (λ move.
        commands (arc_value program) (drop at (steps_of (arc_value program))) last state.old
        ≡ plan_of after on_got move state.new) }
{
    match program.step(at) {
        None => Ok(Next::Done(Ending::Fine(last))),
        Some(Step::Wrong(fault, start)) => {
            let ending = program.unread(alloc, *fault, *start)?;
            Ok(Next::Done(ending))
        }
        Some(Step::Does(code, ..)) => {
            let code = code.clone()?;
            let frame = CommandFrame {
                program,
                at,
                running: Running::new(alloc, code),
            };
            let next = begin_command(alloc, frame, state)?;
            Ok(next)
        }
    }
}

// A unit is spent for the command of the frame, and it begins.
fn begin_command(alloc: Global, frame: CommandFrame, state: &mut State) -> Result<Next, NoMemory>
    ensures { IfOk result (λ move.
        spending (command_needs frame) (command_ended frame (error_ending past_limit)) state.old
        ≡ plan_of after on_got move state.new) }
{
    match state.spend() {
        Unit::Past => {
            let ending = Ending::failed_with(alloc, b"unit limit reached")?;
            let next = leave_script(ending, frame)?;
            Ok(next)
        }
        Unit::Pauses => {
            let request = Boxed::new(alloc, Request::Pause)?;
            Ok(Next::Ask(Want::Ask { request }, Asking::Paused(frame)))
        }
        Unit::Spent => {
            let next = advance_command(alloc, frame)?;
            Ok(next)
        }
    }
}

/// The command of the frame goes on to what it needs next.
pub(crate) fn advance_command(alloc: Global, frame: CommandFrame) -> Result<Next, NoMemory>
    ensures { IfOk result (λ move. (state : Counts)
        → command_needs frame state ≡ plan_of after on_got move state) }
{
    let mut frame = frame;
    match frame.running.advance()? {
        Halt::Variable(name) => Ok(reads(name, None, frame)),
        Halt::Element(name, index) => Ok(reads(name, Some(index), frame)),
        Halt::Script(text) => Ok(Next::Call(None, Job::Script(text), Frame::Needs(frame))),
        Halt::Refused(message) => {
            let ending = Ending::failed(alloc, message)?;
            let next = leave_script(ending, frame)?;
            Ok(next)
        }
        Halt::Value(word) => {
            let mut words = Values::new(alloc);
            words.push(word)?;
            Ok(Next::Ask(Want::RunWords { words }, Asking::Runs(frame)))
        }
        Halt::Values(words) => {
            let words = Values::from(words);
            Ok(Next::Ask(Want::RunWords { words }, Asking::Runs(frame)))
        }
    }
}

fn reads(name: Text, index: Option<Text>, frame: CommandFrame) -> Next
    ensures { result ≡ moves.Ask (wants.ReadVar name index) (askings.Wanted (frames.Needs frame)) }
{
    Next::Ask(
        Want::ReadVar { name, index },
        Asking::Wanted(Frame::Needs(frame)),
    )
}

// An ending other than a result goes out of the script.
fn leave_script(ending: Ending, frame: CommandFrame) -> Result<Next, NoMemory>
    ensures { IfOk result (λ move. move ≡ moves.Done (in_command (arc_value frame.program)
        (start_of (steps_from frame)) (end_of (steps_from frame)) ending)) }
{
    let CommandFrame { program, at, .. } = frame;
    let ending = program.left(at, ending)?;
    Ok(Next::Done(ending))
}

/// The command of the frame has come to this.
pub(crate) fn end_command(
    alloc: Global,
    frame: CommandFrame,
    ending: Ending,
    state: &mut State,
) -> Result<Next, NoMemory>
    ensures { IfOk result (λ move.
        command_ended frame ending state.old ≡ plan_of after on_got move state.new) }
{
    match ending {
        Ending::Fine(last) => {
            let CommandFrame { program, at, .. } = frame;
            let at = at.checked_add(1).ok_or(NoMemory)?;
            let next = next_command(alloc, program, at, last, state)?;
            Ok(next)
        }
        ending => {
            let next = leave_script(ending, frame)?;
            Ok(next)
        }
    }
}

/// The command of the frame has what it needed.
pub(crate) fn give_command(
    alloc: Global,
    frame: CommandFrame,
    ending: Ending,
    state: &mut State,
) -> Result<Next, NoMemory>
    ensures { IfOk result (λ move.
        command_given frame ending state.old ≡ plan_of after on_got move state.new) }
{
    match ending {
        Ending::Fine(value) => {
            let mut frame = frame;
            frame.running.give(value)?;
            let next = advance_command(alloc, frame)?;
            Ok(next)
        }
        ending => {
            let next = leave_script(ending, frame)?;
            Ok(next)
        }
    }
}

/// The words of the command were run.
pub(crate) fn run_command(
    alloc: Global,
    frame: CommandFrame,
    got: Got,
    state: &mut State,
) -> Result<Next, NoMemory>
    ensures { IfOk result (λ move.
        command_then (command_ended frame) got state.old ≡ plan_of after on_got move state.new) }
{
    match got {
        Got::Value(outcome) => {
            let ending = Ending::of_value(alloc, outcome)?;
            let next = end_command(alloc, frame, ending, state)?;
            Ok(next)
        }
        Got::Own { words } => Ok(Next::Call(None, Job::Own(words), Frame::Does(frame))),
        Got::RunBody { body, text } => Ok(Next::Call(
            None,
            Job::Nested(body, text),
            Frame::Does(frame),
        )),
        Got::Reply(_) => {
            let next = end_command(alloc, frame, Ending::nothing(alloc), state)?;
            Ok(next)
        }
    }
}
