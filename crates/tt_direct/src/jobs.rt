//! Jobs that begin, and frames and askings that go on.
ghost use Rattle.std.specs.Prelude.{IfOk, length, ◌≡◌};
ghost use Rattle.tt_direct.specs.Leading.{LeadsOn, TclStack};
ghost use Rattle.tt_direct.specs.inside.Coming.{CameOn};
ghost use Rattle.tt_direct.specs.inside.Commands.{DoneOn};
ghost use Rattle.tt_evaluation.specs.Frames.{plan_of};
ghost use Rattle.tt_frames.specs.Frames.{after, command_ended, command_given, command_needs, on_got};
ghost use Rattle.tt_frames.specs.Scripts as plans;
ghost use Rattle.tt_frames.specs.Tcl.{plan};
ghost use Rattle.tt_frames.specs.Vocabulary.{TclPlan, ending_of};
ghost use Rattle.tt_kept.specs.declared.kept.Kept.{Kept};

use crate::came::Came;
use crate::commands::{AfterWords, Done, end, ran, stopped};
use crate::needs::ending_of;
use crate::nested::{call, compute, evaluate, run, words};
use crate::scripts::pass;
use std::alloc::Global;
use tt_evaluation::{Language, Move};
use tt_frames::{Asking, CommandFrame, Frame, Got, Job, Stack, Tcl, Want};
use tt_kept::Kept;
use tt_outcomes::Ending;
use tt_text::NoMemory;

/// What is done next.
pub type Next = Move<Job, Want, Ending, Frame, Asking>;

/// How many jobs are evaluated in place within one another, at most. More of them are moves, so that the native stack
/// has a bound.
const DEPTH: u8 = 60;

/// Begins a job: it is evaluated, up to its end or to where it goes no further here.
///
/// `NoMemory` if memory is refused, or all steps are taken; then the stack is only fit to be dropped.
pub fn begin(alloc: Global, kept: &mut Kept, stack: &mut Stack, job: Job) -> Result<Next, NoMemory>
    ensures leads { IfOk result (λ next. LeadsOn (plan_of after on_got next) stack.new kept.new
        (plan job) stack.old kept.old) }
{
    let came = evaluate(alloc, kept, stack, DEPTH, job)?;
    Ok(came.into_next())
}

/// A frame goes on with the ending of what it called.
///
/// `NoMemory` if memory is refused, or all steps are taken; then the stack is only fit to be dropped.
pub fn go_on(
    alloc: Global,
    kept: &mut Kept,
    stack: &mut Stack,
    frame: Frame,
    ending: Ending,
) -> Result<Next, NoMemory>
    ensures goes_on { IfOk result (λ next. LeadsOn (plan_of after on_got next) stack.new kept.new
        (after frame ending) stack.old kept.old) }
{
    match frame {
        Frame::Needs(command) => {
            let came = after_need(alloc, kept, stack, command, ending)?;
            Ok(came.into_next())
        }
        Frame::Does(command) => {
            let came = after_command(alloc, kept, stack, command, ending)?;
            Ok(came.into_next())
        }
        Frame::Expression(purpose, code) => match ending {
            Ending::Fine(value) => {
                let mut code = code;
                code.give(value)?;
                let came = compute(alloc, kept, stack, DEPTH, purpose, code)?;
                Ok(came.into_next())
            }
            ending => Ok(Next::Done(ending)),
        },
        frame => {
            let next = Tcl::go_on(alloc, frame, ending, &mut stack.state)?;
            Ok(next)
        }
    }
}

/// What was asked for is there, and the asking goes on with it.
///
/// `NoMemory` if memory is refused, or all steps are taken; then the stack is only fit to be dropped.
pub fn take(
    alloc: Global,
    kept: &mut Kept,
    stack: &mut Stack,
    asking: Asking,
    got: Got,
) -> Result<Next, NoMemory>
    ensures goes_on { IfOk result (λ next. LeadsOn (plan_of after on_got next) stack.new kept.new
        (on_got asking got) stack.old kept.old) }
{
    match asking {
        Asking::Wanted(frame) => {
            let next = after_value(alloc, kept, stack, frame, got)?;
            Ok(next)
        }
        Asking::Runs(command) => {
            let came = after_words(alloc, kept, stack, command, got)?;
            Ok(came.into_next())
        }
        Asking::Paused(command) => {
            let next = after_reply(alloc, kept, stack, command, got)?;
            Ok(next)
        }
        asking => {
            let next = Tcl::take(alloc, asking, got, &mut stack.state)?;
            Ok(next)
        }
    }
}

// The frame goes on with what was got.
fn after_value(
    alloc: Global,
    kept: &mut Kept,
    stack: &mut Stack,
    frame: Frame,
    got: Got,
) -> Result<Next, NoMemory>
    ensures { IfOk result (λ next. LeadsOn (plan_of after on_got next) stack.new kept.new
        (after frame (ending_of got)) stack.old kept.old) }
{
    let ending = ending_of(alloc, got)?;
    let next = go_on(alloc, kept, stack, frame, ending)?;
    Ok(next)
}

// The command goes on after the reply to its pause.
fn after_reply(
    alloc: Global,
    kept: &mut Kept,
    stack: &mut Stack,
    command: CommandFrame,
    _got: Got,
) -> Result<Next, NoMemory>
    ensures { IfOk result (λ next. LeadsOn (plan_of after on_got next) stack.new kept.new
        (command_needs command) stack.old kept.old) }
{
    let came = after_pause(alloc, kept, stack, command)?;
    Ok(came.into_next())
}

// The script that the words of a command need ended so.
fn after_need(
    alloc: Global,
    kept: &mut Kept,
    stack: &mut Stack,
    command: CommandFrame,
    ending: Ending,
) -> Result<Came, NoMemory>
    ensures { IfOk result (λ came. CameOn came stack.new kept.new
        (command_given command ending stack.old.state) stack.old kept.old) }
{
    match ending {
        Ending::Fine(value) => {
            let mut command = command;
            command.running.give(value)?;
            let came = after_pause(alloc, kept, stack, command)?;
            Ok(came)
        }
        ending => {
            let came = after_command(alloc, kept, stack, command, ending)?;
            Ok(came)
        }
    }
}

// A command ended so.
fn after_command(
    alloc: Global,
    kept: &mut Kept,
    stack: &mut Stack,
    command: CommandFrame,
    ending: Ending,
) -> Result<Came, NoMemory>
    ensures { IfOk result (λ came. CameOn came stack.new kept.new
        (command_ended command ending stack.old.state) stack.old kept.old) }
{
    let place = stack.calls.len();
    let done = end(&command, ending)?;
    let came = go_on_script(alloc, kept, stack, place, command, done)?;
    Ok(came)
}

// The words of a command were run.
fn after_words(
    alloc: Global,
    kept: &mut Kept,
    stack: &mut Stack,
    command: CommandFrame,
    got: Got,
) -> Result<Came, NoMemory>
    ensures { IfOk result (λ came. CameOn came stack.new kept.new
        (plans.command_then (command_ended command) got stack.old.state) stack.old kept.old) }
{
    match ran(alloc, got)? {
        AfterWords::Ended(ending) => {
            let came = after_command(alloc, kept, stack, command, ending)?;
            Ok(came)
        }
        AfterWords::Calls(job) => {
            let place = stack.calls.len();
            let done = call(alloc, kept, stack, DEPTH, &command, job)?;
            let came = go_on_script(alloc, kept, stack, place, command, done)?;
            Ok(came)
        }
    }
}

// A command goes on to its words, after a pause or with what they need.
fn after_pause(
    alloc: Global,
    kept: &mut Kept,
    stack: &mut Stack,
    command: CommandFrame,
) -> Result<Came, NoMemory>
    ensures { IfOk result (λ came. CameOn came stack.new kept.new
        (command_needs command stack.old.state) stack.old kept.old) }
{
    let mut command = command;
    let place = stack.calls.len();
    let done = words(alloc, kept, stack, DEPTH, &mut command)?;
    let came = go_on_script(alloc, kept, stack, place, command, done)?;
    Ok(came)
}

// Goes on with a script once the command of the frame is done. There were so many calls before it.
fn go_on_script(
    alloc: Global,
    kept: &mut Kept,
    stack: &mut Stack,
    place: usize,
    frame: CommandFrame,
    done: Done,
) -> Result<Came, NoMemory>
    ensures { IfOk result (λ came. (whole : TclPlan) (before : TclStack) (held : Kept)
        → length before.calls.items ≡ place
        → DoneOn done frame stack.old kept.old whole before held
        → CameOn came stack.new kept.new whole before held) }
{
    match done {
        Done::Stops(stop) => {
            let came = stopped(alloc, stack, place, frame, stop)?;
            Ok(came)
        }
        Done::Fine(value) => {
            let mut frame = frame;
            match pass(alloc, &mut frame, value)? {
                Some(came) => Ok(came),
                None => {
                    let came = run(alloc, kept, stack, DEPTH, frame)?;
                    Ok(came)
                }
            }
        }
    }
}
