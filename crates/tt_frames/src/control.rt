//! Commands that the evaluation does itself.
ghost use Rattle.std.specs.Prelude.{IsFalse, ◌≡◌, IfOk, List, ℕ, codes};
ghost use Rattle.tt_frames.specs.Control.{caught, clauses, control_then, is_other, own, new_error};
ghost use Rattle.tt_frames.specs.Frames.{after, on_got};
ghost use Rattle.tt_frames.specs.Vocabulary.{on_truth, variable_result};
ghost use Rattle.tt_frames.specs.declared.job.Job.TheVariants as jobs;
ghost use Rattle.tt_frames.specs.declared.state.Counts.{Counts};
ghost use Rattle.tt_evaluation.specs.Frames.{plan_of};
ghost use Rattle.tt_evaluation.specs.Plans.{Goes};

use crate::calls::begin_call;
use crate::job::{Asking, Frame, Job, Loop, Purpose};
use crate::language::Next;
use crate::rest::Rest;
use crate::state::State;
use crate::storing::{store, telling};
use std::alloc::Global;
use tt_calls::Code;
use tt_control::{Control, read_control};
use tt_outcomes::{Ending, Failure, code_number};
use tt_text::{NoMemory, Text};
use tt_trace::Trace;
use tt_value::{Value, Values};

/// A command begins whose name is no procedure's and no command's of the host.
#[tactic(auto, using(crate::proofs::Others::asked))]
pub(crate) fn begin_own(alloc: Global, words: Values, state: &mut State) -> Result<Next, NoMemory>
    ensures { IfOk result (λ move. own words state.old ≡ plan_of after on_got move state.new) }
{
    let control = read_control(alloc, words.as_slice())?;
    if is_other(&control) {
        let next = begin_call(alloc, &words, state.me())?;
        Ok(next)
    } else {
        let next = begin_control(alloc, control)?;
        Ok(next)
    }
}

fn is_other(control: &Control) -> bool
    ensures { result ≡ is_other control.now }
{
    matches!(control, Control::Other)
}

// A command of the table begins.
fn begin_control(alloc: Global, control: Control) -> Result<Next, NoMemory>
    ensures { IfOk result (λ move. (words : List (List ℕ)) (state : Counts)
        → IsFalse (is_other control) → control_then words control state ≡ plan_of after on_got move state) }
{
    match control {
        Control::Other => Err(NoMemory),
        Control::Bad(message) => Ok(Next::Done(Ending::failed(alloc, message)?)),
        Control::Break => Ok(Next::Done(Ending::Broke(Text::new(alloc), 0))),
        Control::Continue => Ok(Next::Done(Ending::Continued(Text::new(alloc), 0))),
        Control::Return { kept, value } => Ok(Next::Done(Ending::Returned(value, kept))),
        Control::Error { message, info } => Ok(Next::Done(raise(alloc, message, info)?)),
        Control::Catch { script, variable } => Ok(Next::Call(
            None,
            Job::Script(script),
            Frame::Catches(variable),
        )),
        Control::Expr(text) => Ok(Next::Goto(Job::Expression(Purpose::Value, text))),
        Control::If { clauses } => {
            let next = begin_clauses(alloc, Rest::new(alloc, clauses)?)?;
            Ok(next)
        }
        Control::While { test, body } => Ok(Next::Goto(Job::Loop(Loop::While { test, body }))),
        Control::For {
            start,
            test,
            next,
            body,
        } => Ok(Next::Call(
            None,
            Job::Script(start),
            Frame::LoopStart(Loop::For { test, next, body }),
        )),
        Control::Foreach {
            names,
            values,
            body,
        } => Ok(Next::Goto(Job::Loop(Loop::Foreach {
            names: Rest::new(alloc, names)?,
            values: Rest::new(alloc, values)?,
            body,
        }))),
        Control::Script(text) => Ok(Next::Goto(Job::Script(text))),
    }
}

// The error of error(n).
fn raise(alloc: Global, message: Text, info: Option<Text>) -> Result<Ending, NoMemory>
    ensures { IfOk result (λ ending. ending ≡ new_error message info) }
{
    match info {
        None => {
            let ending = Ending::failed(alloc, message)?;
            Ok(ending)
        }
        Some(info) => Ok(Ending::Raised(Failure {
            message,
            trace: Trace::start_within(alloc, info.as_bytes())?,
            line: 0,
        })),
    }
}

// The first test of if(n) begins, or its else.
fn begin_clauses(alloc: Global, left: Rest) -> Result<Next, NoMemory>
    ensures { IfOk result (λ move. (state : Counts) → clauses left state ≡ plan_of after on_got move state) }
{
    let mut left = left;
    let Some(first) = left.take()? else {
        return Ok(Next::Done(Ending::nothing(alloc)));
    };
    let Some(body) = left.take()? else {
        return Ok(Next::Goto(Job::Script(first)));
    };
    Ok(Next::Call(
        None,
        Job::Expression(Purpose::Condition, first),
        Frame::Clause(body, left),
    ))
}

/// A test of if(n) came to this.
pub(crate) fn after_clause(
    alloc: Global,
    body: Text,
    left: Rest,
    ending: Ending,
) -> Result<Next, NoMemory>
    ensures { IfOk result (λ move. (state : Counts)
        → on_truth (Goes (jobs.Script body)) (clauses left) ending state ≡ plan_of after on_got move state) }
{
    match ending {
        Ending::Fine(value) => {
            if value.into_text(alloc)?.as_bytes() == b"1".as_slice() {
                Ok(Next::Goto(Job::Script(body)))
            } else {
                let next = begin_clauses(alloc, left)?;
                Ok(next)
            }
        }
        ending => Ok(Next::Done(ending)),
    }
}

/// The script that is caught ended so (catch(n)).
pub(crate) fn after_caught(
    alloc: Global,
    variable: Option<Text>,
    ending: Ending,
) -> Result<Next, NoMemory>
    ensures { IfOk result (λ move. (state : Counts)
        → caught variable ending state ≡ plan_of after on_got move state) }
{
    match ending {
        Ending::Failed(failure) | Ending::Raised(failure) => {
            let Failure { message, trace, .. } = failure;
            let want = telling(alloc, trace.text().copy()?)?;
            Ok(Next::Ask(want, Asking::Caught(variable, message)))
        }
        ending => {
            let number = Text::from_bytes(alloc, code_number(ending.code()))?;
            let next = store(
                alloc,
                variable,
                ending.into_value(),
                Value::from_text(number),
            )?;
            Ok(next)
        }
    }
}

/// The error that was caught is recorded.
pub(crate) fn store_caught(
    alloc: Global,
    variable: Option<Text>,
    message: Text,
) -> Result<Next, NoMemory>
    ensures { IfOk result (λ move. (state : Counts)
        → variable_result variable message (codes "1") state ≡ plan_of after on_got move state) }
{
    let number = Text::from_bytes(alloc, code_number(Code::Failed))?;
    let message = Value::from_text(message);
    let next = store(alloc, variable, message, Value::from_text(number))?;
    Ok(next)
}
