//! How a text is read as an expression.
ghost use Rattle.std.specs.Prelude.{◌≡◌, IfOk};
ghost use Rattle.tt_exprs.specs.inside.Cutting.{reading_answer};
ghost use Rattle.tt_exprs.specs.Parsing as parsing;
ghost use Rattle.tt_exprs.specs.Plain.{plain_parsed};
ghost use Rattle.tt_exprs.specs.inside.Stacks.{plain_outcome, plain_reading};

use crate::climbing::Outcome;
use crate::expression::Parsed;
use crate::reading::{Reading, read_tokens};
use std::alloc::Global;
use tt_text::{NoMemory, Text};

/// `invalid bareword "WORD"`.
fn bareword_error(alloc: Global, word: &[u8]) -> Result<Text, NoMemory>
    ensures { IfOk result (λ message. message ≡ parsing.bareword_error word.now) }
{
    let mut message = Text::from_bytes(alloc, b"invalid bareword \"")?;
    message.push_bytes(word)?;
    message.push_bytes(b"\"")?;
    Ok(message)
}

/// `syntax error in expression "TEXT"`.
fn syntax_error(alloc: Global, text: &[u8]) -> Result<Text, NoMemory>
    ensures { IfOk result (λ message. message ≡ parsing.syntax_error text.now) }
{
    let mut message = Text::from_bytes(alloc, b"syntax error in expression \"")?;
    message.push_bytes(text)?;
    message.push_bytes(b"\"")?;
    Ok(message)
}

/// What tokens that have come to this make of the text.
fn answered(alloc: Global, text: &[u8], outcome: Outcome) -> Result<Parsed, NoMemory>
    ensures { IfOk result (λ parsed. plain_parsed parsed ≡ parsing.parse_answer text.now (plain_outcome outcome)) }
{
    match outcome {
        Outcome::Good(expr) => Ok(Parsed::Tree(expr)),
        Outcome::Malformed => {
            let message = syntax_error(alloc, text)?;
            Ok(Parsed::Bad(message))
        }
        Outcome::NestedTooDeeply => {
            let message = Text::from_bytes(alloc, b"expression nested too deeply")?;
            Ok(Parsed::Bad(message))
        }
    }
}

/// What the text is read as whose tokens come to this.
fn reading_answer(alloc: Global, text: &[u8], reading: Reading) -> Result<Parsed, NoMemory>
    ensures { IfOk result (λ parsed. plain_parsed parsed ≡ reading_answer text.now (plain_reading reading)) }
{
    match reading {
        Reading::Whole(outcome) => answered(alloc, text, outcome),
        Reading::RefusedAt(word) => {
            let message = bareword_error(alloc, word.as_bytes())?;
            Ok(Parsed::Bad(message))
        }
        Reading::StoppedHere => {
            let message = syntax_error(alloc, text)?;
            Ok(Parsed::Bad(message))
        }
    }
}

/// Reads a text as an expression, as expr(n) says: its operands are the leaves of a tree, and its
/// operators and functions the nodes, which bind by the table of precedence.
///
/// `Bad` with the message `invalid bareword "WORD"` if a bare word is no boolean word, operator or
/// function; else `syntax error in expression "TEXT"` if the text has no tree; else `expression
/// nested too deeply` if operators, functions and parentheses are nested more than 1,000 deep.
///
/// `NoMemory` if the memory for the answer is refused.
pub fn parse(alloc: Global, text: &[u8]) -> Result<Parsed, NoMemory>
    ensures exact { IfOk result (λ parsed. plain_parsed parsed ≡ parsing.parse text.now) }
{
    let reading = read_tokens(alloc, text)?;
    let parsed = reading_answer(alloc, text, reading)?;
    Ok(parsed)
}
