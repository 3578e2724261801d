//! Commands of a script: what their words do, and how they end (Tcl(n), rules 1, 2 and 7 to 11).
ghost use Rattle.std.specs.Prelude.{◌≡◌, ◌∷◌, [], IfOk, IfSome, IsTrue, length};
ghost use Rattle.tt_direct.specs.Leading.{GoesOn, TclStack};
ghost use Rattle.tt_direct.specs.inside.Coming.{CameOn};
ghost use Rattle.tt_direct.specs.inside.Commands.{DoneOn, begun_command, leaves_none, then_done, then_ran, then_spent};
ghost use Rattle.tt_frames.specs.Frames.{command_ended};
ghost use Rattle.tt_frames.specs.Scripts.{command_then, command_of_words};
ghost use Rattle.tt_frames.specs.Vocabulary.{OnEnding, TclPlan};
ghost use Rattle.tt_frames.specs.declared.state.Counts.{Counts};
ghost use Rattle.tt_kept.specs.declared.kept.Kept.{Kept};
ghost use Rattle.tt_direct.specs.declared.commands.Done.TheVariants as dones;

use crate::came::Came;
use crate::jobs::Next;
use crate::leaving::leave;
use std::alloc::Global;
use tt_calls::{Boxed, Request};
use tt_frames::{Asking, CommandFrame, Frame, Got, Job, Stack, State, Unit, Want};
use tt_kept::Kept;
use tt_outcomes::Ending;
use tt_text::NoMemory;
use tt_value::{Value, Values};

/// What comes of a command.
#[derive(Debug, Drop)]
pub(crate) enum Done {
    /// This is its result.
    Fine(Value),
    /// It goes no further here.
    Stops(Stop),
}

/// Why a command goes no further.
#[derive(Debug, Drop)]
pub(crate) enum Stop {
    /// The script ended so.
    Ended(Ending),
    /// There is a pause before it.
    Pauses,
    /// Its words need the result of a script, which came to this move.
    Needs(Boxed<Next>),
    /// It calls a job, which came to this move.
    Calls(Boxed<Next>),
}

/// What the words of a command come to.
#[derive(Debug, Drop)]
pub(crate) enum AfterWords {
    /// The command ended so.
    Ended(Ending),
    /// It calls this job.
    Calls(Job),
}

/// A unit is spent for the command of the frame. If the command doesn't go on to its words, the answer says why.
///
/// `NoMemory` if memory is refused.
pub(crate) fn spend(
    alloc: Global,
    state: &mut State,
    frame: &CommandFrame,
) -> Result<Option<Done>, NoMemory>
    ensures spent { IfOk result (λ done.
        begun_command frame.now state.old ≡ then_spent done frame.now state.new) }
    ensures none { IfOk result (λ done. IfSome done (λ done. IsTrue (leaves_none done))) }
{
    match state.spend() {
        Unit::Past => {
            let ending = Ending::failed_with(alloc, b"unit limit reached")?;
            let done = end(frame, ending)?;
            Ok(Some(done))
        }
        Unit::Pauses => Ok(Some(Done::Stops(Stop::Pauses))),
        Unit::Spent => Ok(None),
    }
}

/// The words of a command are run.
///
/// `NoMemory` if memory is refused.
pub(crate) fn run_words(
    alloc: Global,
    kept: &mut Kept,
    words: Values,
) -> Result<AfterWords, NoMemory>
    ensures runs { IfOk result (λ ran. (go : OnEnding) (state : Counts)
        → GoesOn (then_ran ran go state) kept.new (command_of_words go words state) kept.old) }
{
    let got = kept.answer(alloc, Want::RunWords { words })?;
    let ran = ran(alloc, got)?;
    Ok(ran)
}

/// What the words of a command came to.
///
/// `NoMemory` if memory is refused.
pub(crate) fn ran(alloc: Global, got: Got) -> Result<AfterWords, NoMemory>
    ensures ran { IfOk result (λ ran. (go : OnEnding) (state : Counts)
        → command_then go got state ≡ then_ran ran go state) }
{
    match got {
        Got::Value(outcome) => {
            let ending = Ending::of_value(alloc, outcome)?;
            Ok(AfterWords::Ended(ending))
        }
        Got::Own { words } => Ok(AfterWords::Calls(Job::Own(words))),
        Got::RunBody { body, text } => Ok(AfterWords::Calls(Job::Nested(body, text))),
        Got::Reply(_) => Ok(AfterWords::Ended(Ending::nothing(alloc))),
    }
}

/// The command of the frame ended so.
///
/// `NoMemory` if memory is refused.
pub(crate) fn end(frame: &CommandFrame, ending: Ending) -> Result<Done, NoMemory>
    ensures ended { IfOk result (λ done. (state : Counts)
        → command_ended frame.now ending state ≡ then_done done frame.now state) }
    ensures none { IfOk result (λ done. IsTrue (leaves_none done)) }
{
    match ending {
        Ending::Fine(value) => Ok(Done::Fine(value)),
        ending => {
            let ending = frame.program.left(frame.at, ending)?;
            Ok(Done::Stops(Stop::Ended(ending)))
        }
    }
}

/// One word.
///
/// `NoMemory` if memory is refused.
pub(crate) fn one(alloc: Global, word: Value) -> Result<Values, NoMemory>
    ensures one { IfOk result (λ words. words ≡ word ∷ []) }
{
    let mut words = Values::new(alloc);
    words.push(word)?;
    Ok(words)
}

/// The command of the frame goes no further here, and neither does its script. There were so many calls before it.
///
/// `NoMemory` if memory is refused.
pub(crate) fn stopped(
    alloc: Global,
    stack: &mut Stack,
    place: usize,
    frame: CommandFrame,
    stop: Stop,
) -> Result<Came, NoMemory>
    ensures stopped { IfOk result (λ came. (kept held : Kept) (whole : TclPlan) (before : TclStack)
        → length before.calls.items ≡ place
        → DoneOn (dones.Stops stop) frame stack.old kept whole before held
        → CameOn came stack.new kept whole before held) }
{
    match stop {
        Stop::Ended(ending) => {
            let came = Came::ended(alloc, ending)?;
            Ok(came)
        }
        Stop::Pauses => {
            let request = Boxed::new(alloc, Request::Pause)?;
            let next = Next::Ask(Want::Ask { request }, Asking::Paused(frame));
            let came = Came::moves(alloc, next)?;
            Ok(came)
        }
        Stop::Needs(next) => {
            let came = leave(stack, place, Frame::Needs(frame), next)?;
            Ok(came)
        }
        Stop::Calls(next) => {
            let came = leave(stack, place, Frame::Does(frame), next)?;
            Ok(came)
        }
    }
}
