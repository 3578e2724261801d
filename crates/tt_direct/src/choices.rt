//! Choices: the tests of if(n) and their bodies.
ghost use Rattle.std.specs.Prelude.{◌≡◌, IfOk, IfSome};
ghost use Rattle.tt_direct.specs.inside.Choices.{then_clause};
ghost use Rattle.tt_frames.specs.Control.{clauses, own};
ghost use Rattle.tt_frames.specs.declared.state.Counts.{Counts};

use std::alloc::Global;
use tt_control::{Control, read_control};
use tt_frames::Rest;
use tt_text::{NoMemory, Text};
use tt_value::Value;

/// What comes first of the tests and bodies of a choice.
#[derive(Debug, Drop)]
pub(crate) enum Clause {
    /// Nothing.
    None,
    /// The body of the `else`.
    Otherwise(Text),
    /// A test, and its body.
    Tests(Text, Text),
}

/// The tests and the bodies, and last an `else`, if the words are those of an `if` that can be read.
///
/// `NoMemory` if memory is refused.
pub(crate) fn clauses_of(alloc: Global, words: &[Value]) -> Result<Option<Rest>, NoMemory>
    ensures clauses { IfOk result (λ left. IfSome left (λ left. (state : Counts)
        → own words.now state ≡ clauses left state)) }
{
    if !begins_choice(alloc, words)? {
        return Ok(None);
    }
    match read_control(alloc, words)? {
        Control::If { clauses } => Ok(Some(Rest::new(alloc, clauses)?)),
        _ => Ok(None),
    }
}

/// Takes what comes first of the tests and the bodies.
///
/// `NoMemory` if memory is refused.
pub(crate) fn next_clause(left: &mut Rest) -> Result<Clause, NoMemory>
    ensures clause { IfOk result (λ clause. (state : Counts)
        → clauses left.old state ≡ then_clause clause left.new state) }
{
    match left.take()? {
        None => Ok(Clause::None),
        Some(first) => match left.take()? {
            None => Ok(Clause::Otherwise(first)),
            Some(body) => Ok(Clause::Tests(first, body)),
        },
    }
}

// Whether the first word is `if`: the control of other words isn't read here.
fn begins_choice(alloc: Global, words: &[Value]) -> Result<bool, NoMemory> {
    match words {
        [name, ..] => Ok(name.to_text(alloc)?.as_bytes() == b"if".as_slice()),
        [] => Ok(false),
    }
}
