//! A text read as an expression, token by token.
ghost use Rattle.std.specs.Prelude.{◌≡◌, ◌≤◌, [], IfOk, length};
ghost use Rattle.tt_exprs.specs.inside.Cutting.{comes_to};
ghost use Rattle.tt_exprs.specs.Parsing.{wants};
ghost use Rattle.tt_exprs.specs.inside.Stacks.{plain_reading};
ghost use Rattle.tt_exprs.specs.Tokens as tokens;

use crate::climbing::{Outcome, Phase, State, finished, step};
use crate::tokens::{Cut, is_white_space, token_at};
use std::alloc::Global;
use tt_text::{NoMemory, Text};

/// What the tokens of a text come to.
#[derive(Drop)]
pub(crate) enum Reading {
    /// All of them are read.
    Whole(Outcome),
    /// This bare word is none.
    RefusedAt(Text),
    /// There is a place where no token begins.
    StoppedHere,
}

/// What the tokens of this text come to.
pub(crate) fn read_tokens(alloc: Global, text: &[u8]) -> Result<Reading, NoMemory>
    ensures { IfOk result
        (λ reading. plain_reading reading ≡ comes_to (wants []) (tokens.tokens 0 text.now)) }
{
    let mut state = State {
        pending: Vec::new(alloc),
        phase: Phase::Wants,
    };
    let mut at = 0;
    while at < text.len() {
        if is_white_space(text[at]) {
            at += 1;
            continue;
        }
        match token_at(alloc, text, at)? {
            Cut::One(token, n) => {
                step(alloc, &mut state, token)?;
                at += n;
            }
            Cut::Refused(word) => return Ok(Reading::RefusedAt(word)),
            Cut::NoneHere => return Ok(Reading::StoppedHere),
        }
    }
    let outcome = finished(alloc, state)?;
    Ok(Reading::Whole(outcome))
}
