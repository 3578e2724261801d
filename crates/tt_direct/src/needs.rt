//! What words and expressions need.
ghost use Rattle.std.specs.Prelude.{◌≡◌, IfOk, Option, List, ℕ};
ghost use Rattle.tt_direct.specs.Leading.{GoesOn};
ghost use Rattle.tt_direct.specs.inside.Needing.{after_ending, then_met, then_needed};
ghost use Rattle.tt_code.specs.Running.{needs};
ghost use Rattle.tt_frames.specs.Scripts.{OnValues, needing};
ghost use Rattle.tt_frames.specs.Vocabulary.{OnEnding, ending_of};
ghost use Rattle.tt_frames.specs.declared.state.Counts.{Counts};
ghost use Rattle.tt_kept.specs.Answering.{Answers};
ghost use Rattle.tt_outcomes.specs.declared.got.Got.{Got};
ghost use Rattle.tt_outcomes.specs.declared.want.Want.TheVariants as wants;

use std::alloc::Global;
use tt_code::{Halt, Running};
use tt_frames::{Got, Want};
use tt_kept::Kept;
use tt_outcomes::Ending;
use tt_text::{NoMemory, Text};
use tt_value::Value;

/// What comes of code.
#[derive(Debug, Drop)]
pub(crate) enum Met {
    /// It came to this value.
    Value(Value),
    /// It came to these values.
    Values(Vec<Value>),
    /// Something that it needs ended so, or it has an error.
    Quit(Ending),
    /// It needs the result of this script.
    Script(Text),
}

/// What comes of one thing that code needs.
#[derive(Debug, Drop)]
pub(crate) enum Needed {
    /// The code has it, and goes on.
    Given,
    /// The code came to this.
    Met(Met),
}

/// Runs code up to its values, or to a script that it needs. Variables are read, and nothing is changed.
///
/// `NoMemory` if memory is refused.
pub(crate) fn meet(alloc: Global, kept: &mut Kept, running: &mut Running) -> Result<Met, NoMemory>
    ensures meets { IfOk result (λ met. (finish : OnValues) (quit : OnEnding) (state : Counts)
        → GoesOn (then_met met running.new finish quit state) kept.new
        (needing finish quit (needs running.old) state) kept.old) }
{
    'needs: for _ in 0..u64::MAX {
        match need(alloc, kept, running)? {
            Needed::Given => {}
            Needed::Met(met) => return Ok(met),
        }
    }
    Err(NoMemory)
}

// Runs code up to what it needs next, and gives it that.
fn need(alloc: Global, kept: &mut Kept, running: &mut Running) -> Result<Needed, NoMemory>
    ensures needs { IfOk result (λ needed. (finish : OnValues) (quit : OnEnding) (state : Counts)
        → GoesOn (then_needed needed running.new finish quit state) kept.new
        (needing finish quit (needs running.old) state) kept.old) }
{
    match running.advance()? {
        Halt::Variable(name) => {
            let ending = read(alloc, kept, name, None)?;
            let needed = give(running, ending)?;
            Ok(needed)
        }
        Halt::Element(name, index) => {
            let ending = read(alloc, kept, name, Some(index))?;
            let needed = give(running, ending)?;
            Ok(needed)
        }
        Halt::Script(text) => Ok(Needed::Met(Met::Script(text))),
        Halt::Refused(message) => {
            let ending = Ending::failed(alloc, message)?;
            Ok(Needed::Met(Met::Quit(ending)))
        }
        Halt::Value(value) => Ok(Needed::Met(Met::Value(value))),
        Halt::Values(values) => Ok(Needed::Met(Met::Values(values))),
    }
}

// What code needs has come to this.
fn give(running: &mut Running, ending: Ending) -> Result<Needed, NoMemory>
    ensures { IfOk result (λ needed. (finish : OnValues) (quit : OnEnding) (state : Counts)
        → after_ending running.old finish quit ending state ≡ then_needed needed running.new finish quit state) }
{
    match ending {
        Ending::Fine(value) => {
            running.give(value)?;
            Ok(Needed::Given)
        }
        ending => Ok(Needed::Met(Met::Quit(ending))),
    }
}

// A variable or an element is read.
fn read(alloc: Global, kept: &mut Kept, name: Text, index: Option<Text>) -> Result<Ending, NoMemory>
    ensures answers { IfOk result (λ ending. (got : Got)
        × Answers (wants.ReadVar name index) kept.old got kept.new × (ending ≡ ending_of got)) }
{
    let got = kept.answer(alloc, Want::ReadVar { name, index })?;
    ending_of(alloc, got)
}

/// What was got, as an ending.
///
/// `NoMemory` if memory is refused.
pub(crate) fn ending_of(alloc: Global, got: Got) -> Result<Ending, NoMemory>
    ensures ending { IfOk result (λ ending. ending ≡ ending_of got) }
{
    match got {
        Got::Value(outcome) => {
            let ending = Ending::of_value(alloc, outcome)?;
            Ok(ending)
        }
        _ => Ok(Ending::nothing(alloc)),
    }
}
