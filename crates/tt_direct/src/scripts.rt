//! Scripts, from one command to the next (Tcl(n)).
ghost use Rattle.std.specs.Prelude.{◌≡◌, [], IfOk, IfSome, IsTrue, drop};
ghost use Rattle.std.specs.Arc.{arc_value};
ghost use Rattle.tt_direct.specs.inside.Coming.{is_plain};
ghost use Rattle.tt_direct.specs.inside.Commands.{commands_after, is_plain_first, then_first, then_passed};
ghost use Rattle.tt_frames.specs.Programs.{steps_of};
ghost use Rattle.tt_frames.specs.Scripts.{commands};
ghost use Rattle.tt_frames.specs.declared.state.Counts.{Counts};

use crate::came::Came;
use std::alloc::Global;
use std::sync::Arc;
use tt_code::Running;
use tt_frames::{CommandFrame, Program, Step};
use tt_text::NoMemory;
use tt_value::Value;

/// How a script begins.
#[derive(Debug, Drop)]
pub(crate) enum Opening {
    /// With this command.
    Does(CommandFrame),
    /// It is over.
    Over(Came),
}

/// The first command of a script, if it has one.
///
/// `NoMemory` if memory is refused.
pub(crate) fn first(alloc: Global, program: Arc<Program>) -> Result<Opening, NoMemory>
    ensures first { IfOk result (λ first. (state : Counts)
        → commands (arc_value program) (drop 0 (steps_of (arc_value program))) [] state ≡ then_first first state) }
    ensures plain { IfOk result (λ first. IsTrue (is_plain_first first)) }
{
    let code = match program.step(0) {
        None => return Ok(Opening::Over(Came::Fine(Value::new(alloc)))),
        Some(Step::Wrong(fault, start)) => {
            let ending = program.unread(alloc, *fault, *start)?;
            let came = Came::ended(alloc, ending)?;
            return Ok(Opening::Over(came));
        }
        Some(Step::Does(code, ..)) => code.clone()?,
    };
    Ok(Opening::Does(CommandFrame {
        program,
        at: 0,
        running: Running::new(alloc, code),
    }))
}

/// The next command takes the place of one that has this result; or the script is over.
///
/// `NoMemory` if memory is refused.
pub(crate) fn pass(
    alloc: Global,
    frame: &mut CommandFrame,
    last: Value,
) -> Result<Option<Came>, NoMemory>
    ensures passed { IfOk result (λ came. (state : Counts)
        → commands_after frame.old last state ≡ then_passed came frame.new state) }
    ensures plain { IfOk result (λ came. IfSome came (λ came. IsTrue (is_plain came))) }
{
    let at = frame.at.checked_add(1).ok_or(NoMemory)?;
    let code = match frame.program.step(at) {
        None => return Ok(Some(Came::Fine(last))),
        Some(Step::Wrong(fault, start)) => {
            let ending = frame.program.unread(alloc, *fault, *start)?;
            let came = Came::ended(alloc, ending)?;
            return Ok(Some(came));
        }
        Some(Step::Does(code, ..)) => code.clone()?,
    };
    frame.at = at;
    frame.running.restart(code);
    Ok(None)
}
