//! if(n): its tests and bodies.
ghost use Rattle.std.specs.Prelude.{◌≡◌, IfOk};
ghost use Rattle.std.specs.Option.{option_map};
ghost use Rattle.tt_control.specs.Refusals.{wrong_number};
ghost use Rattle.tt_control.specs.Branches as branches;

use crate::Control;
use crate::refusals::wrong_number;
use std::alloc::Global;
use tt_text::{NoMemory, Text, Texts};

/// What stands next in the words of if(n).
#[derive(Clone, Copy, Debug, PartialEq, Eq)]
pub(crate) enum Place {
    /// A test.
    Test,
    /// A body, or `then` before it.
    ThenOrBody,
    /// A body.
    Body,
    /// `elseif`, `else`, the last body without it, or the end.
    Later,
    /// The last body.
    LastBody,
    /// The end.
    End,
}

/// What a word is at a place, and what stands after it.
#[derive(Clone, Copy, Debug, PartialEq, Eq)]
pub(crate) enum Step {
    /// A test or a body.
    Clause(Place),
    /// A word that only says what comes next.
    Keyword(Place),
    /// One word too many.
    Surplus,
}

pub(crate) fn branch(alloc: Global, usage: &[u8], words: &[Text]) -> Result<Control, NoMemory>
    ensures { IfOk result (λ control. control ≡ branches.branch (wrong_number usage.now) words.now) }
{
    match clauses(alloc, words)? {
        Some(clauses) => Ok(Control::If { clauses }),
        None => wrong_number(alloc, usage),
    }
}

fn clauses(alloc: Global, words: &[Text]) -> Result<Option<Texts>, NoMemory>
    ensures { IfOk result (λ clauses. clauses ≡ branches.clauses Place.Test words.now) }
{
    let mut found = Texts::new(alloc);
    let mut place = Place::Test;
    let mut rest = words;
    while let [word, later @ ..] = rest {
        match step_at(place, word.as_bytes()) {
            Step::Clause(next) => {
                found.push(word.copy()?)?;
                place = next;
            }
            Step::Keyword(next) => place = next,
            Step::Surplus => return Ok(None),
        }
        rest = later;
    }
    Ok(if may_end(place) { Some(found) } else { None })
}

fn step_at(place: Place, word: &[u8]) -> Step
    ensures { result ≡ branches.step_at place word.now }
{
    match place {
        Place::Test => Step::Clause(Place::ThenOrBody),
        Place::ThenOrBody if word == b"then".as_slice() => Step::Keyword(Place::Body),
        Place::ThenOrBody | Place::Body => Step::Clause(Place::Later),
        Place::Later if word == b"elseif".as_slice() => Step::Keyword(Place::Test),
        Place::Later if word == b"else".as_slice() => Step::Keyword(Place::LastBody),
        Place::Later | Place::LastBody => Step::Clause(Place::End),
        Place::End => Step::Surplus,
    }
}

fn may_end(place: Place) -> bool
    ensures { result ≡ branches.may_end place }
{
    matches!(place, Place::Later | Place::End)
}
