//! Expressions (expr(n)).
ghost use Rattle.tt_exprs.specs.Apply.{truth_of};
ghost use Rattle.std.specs.Prelude.{◌≡◌, IfOk};
ghost use Rattle.tt_code.specs.Running.{needs};
ghost use Rattle.tt_frames.specs.Expressions.{needs_then, ending_for, expression, first_of, made_needs, truth_ending};
ghost use Rattle.tt_frames.specs.Frames.{after, expression_given, on_got};
ghost use Rattle.tt_frames.specs.declared.job.Asking.TheVariants as askings;
ghost use Rattle.tt_frames.specs.declared.job.Frame.TheVariants as frames;
ghost use Rattle.tt_frames.specs.declared.state.Counts.{Counts};
ghost use Rattle.tt_evaluation.specs.Frames.{plan_of};
ghost use Rattle.tt_evaluation.specs.declared.language.Move.TheVariants as moves;
ghost use Rattle.tt_outcomes.specs.declared.want.Want.TheVariants as wants;

use crate::job::{Asking, Frame, Job, Purpose};
use crate::kept::Made;
use crate::language::Next;
use crate::state::State;
use std::alloc::Global;
use tt_code::{Halt, Running, bit, truth_value};
use tt_outcomes::{Ending, Want};
use tt_text::{NoMemory, Text};
use tt_value::Value;

/// An expression begins.
pub(crate) fn begin_expression(
    alloc: Global,
    purpose: Purpose,
    text: Text,
    state: &mut State,
) -> Result<Next, NoMemory>
    ensures { IfOk result (λ move. expression purpose text state.old ≡ plan_of after on_got move state.new) }
{
    let made = state.expression(text)?;
    let next = begin_made(alloc, purpose, made)?;
    Ok(next)
}

fn begin_made(alloc: Global, purpose: Purpose, made: Made) -> Result<Next, NoMemory>
    ensures { IfOk result (λ move. (state : Counts)
        → needs_then purpose (made_needs made) state ≡ plan_of after on_got move state) }
{
    match made {
        Made::Bad(message) => Ok(Next::Done(Ending::failed(alloc, message)?)),
        Made::Code(code) => {
            let next = advance(alloc, purpose, Running::new(alloc, code))?;
            Ok(next)
        }
    }
}

// The expression goes on to what it needs next.
fn advance(alloc: Global, purpose: Purpose, running: Running) -> Result<Next, NoMemory>
    ensures { IfOk result (λ move. (state : Counts)
        → needs_then purpose (needs running) state ≡ plan_of after on_got move state) }
{
    let mut running = running;
    match running.advance()? {
        Halt::Variable(name) => Ok(reads(name, None, purpose, running)),
        Halt::Element(name, index) => Ok(reads(name, Some(index), purpose, running)),
        Halt::Script(text) => Ok(Next::Call(
            None,
            Job::Script(text),
            Frame::Expression(purpose, running),
        )),
        Halt::Refused(message) => Ok(Next::Done(Ending::failed(alloc, message)?)),
        Halt::Value(value) => Ok(Next::Done(ending_for(alloc, purpose, value)?)),
        Halt::Values(values) => Ok(Next::Done(ending_for(
            alloc,
            purpose,
            first_of(alloc, values),
        )?)),
    }
}

/// The first of the values that code came to; of none an empty text.
pub fn first_of(alloc: Global, values: Vec<Value>) -> Value
    ensures first { result ≡ first_of values.items }
{
    match values.into_iter().next() {
        Some(value) => value,
        None => Value::new(alloc),
    }
}

/// What an expression with this value comes to (expr(n)): a condition to 1 or 0, or to an error if it is no boolean.
///
/// `NoMemory` if memory is refused.
pub fn ending_for(alloc: Global, purpose: Purpose, value: Value) -> Result<Ending, NoMemory>
    ensures ending { IfOk result (λ ending. ending ≡ ending_for purpose value) }
{
    match purpose {
        Purpose::Value => Ok(Ending::Fine(value)),
        Purpose::Condition => {
            let ending = truth_ending(alloc, value)?;
            Ok(ending)
        }
    }
}

// The truth of a value, as 1 or 0.
fn truth_ending(alloc: Global, value: Value) -> Result<Ending, NoMemory>
    ensures { IfOk result (λ ending. ending ≡ truth_ending (truth_of value)) }
{
    match truth_value(alloc, value)? {
        Ok(truth) => Ok(Ending::Fine(bit(truth))),
        Err(message) => {
            let ending = Ending::failed(alloc, message)?;
            Ok(ending)
        }
    }
}

fn reads(name: Text, index: Option<Text>, purpose: Purpose, running: Running) -> Next
    ensures { result ≡ moves.Ask (wants.ReadVar name index) (askings.Wanted (frames.Expression purpose running)) }
{
    Next::Ask(
        Want::ReadVar { name, index },
        Asking::Wanted(Frame::Expression(purpose, running)),
    )
}

/// The expression has what it needed.
pub(crate) fn give_expression(
    alloc: Global,
    purpose: Purpose,
    running: Running,
    ending: Ending,
) -> Result<Next, NoMemory>
    ensures { IfOk result (λ move. (state : Counts)
        → expression_given purpose running ending state ≡ plan_of after on_got move state) }
{
    match ending {
        Ending::Fine(value) => {
            let mut running = running;
            running.give(value)?;
            let next = advance(alloc, purpose, running)?;
            Ok(next)
        }
        ending => Ok(Next::Done(ending)),
    }
}
