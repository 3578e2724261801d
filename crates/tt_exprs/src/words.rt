//! The bare words of an expression (expr(n), OPERANDS and OPERATORS).
ghost use Rattle.std.specs.Prelude.{◌≡◌, ◌≤◌, ◌<◌, IfOk, length};
ghost use Rattle.std.specs.List.{prefix_len};
ghost use Rattle.std.specs.Str.{str_eq_ignore_ascii_case};
ghost use Rattle.tt_exprs.specs.Operators as operators;
ghost use Rattle.tt_exprs.specs.inside.CutTokens.{plain_cut, TakesWithin};
ghost use Rattle.tt_exprs.specs.Tokens as tokens;

use crate::expression::Expr;
use crate::op::Op;
use crate::operators::spelling;
use crate::tokens::{Cut, Token};
use std::alloc::Global;
use tt_text::{NoMemory, Text};

/// Whether a bare word may begin with this byte.
pub(crate) fn begins_word(byte: u8) -> bool
    ensures { result ≡ tokens.begins_word byte }
{
    byte.is_ascii_alphabetic() || byte == b'_'
}

/// Whether a bare word may go on with this byte.
fn is_word_byte(byte: u8) -> bool
    ensures { result ≡ tokens.is_word_byte byte }
{
    byte.is_ascii_alphanumeric() || byte == b'_'
}

/// How many bytes of a bare word are at the front.
fn word_length(text: &[u8]) -> usize
    ensures count { result ≡ prefix_len tokens.is_word_byte text.now }
    ensures within { result ≤ length text.now }
{
    let mut n = 0;
    let mut rest = text;
    while let [first, more @ ..] = rest {
        if !is_word_byte(*first) {
            break;
        }
        n += 1;
        rest = more;
    }
    n
}

/// The one of these operators that is spelled so.
fn spelled_so(ops: &[Op], word: &[u8]) -> Option<Op>
    ensures { result ≡ operators.spelled_so ops.now word.now }
{
    ops.iter().copied().find(|op| word == spelling(*op))
}

/// The operator that is spelled so.
fn operator_word(word: &[u8]) -> Option<Op>
    ensures { result ≡ operators.spelled_so operators.word_operators word.now }
{
    spelled_so(
        &[Op::TextEqual, Op::TextNotEqual, Op::Member, Op::NotMember],
        word,
    )
}

/// The function of this name.
fn function_word(word: &[u8]) -> Option<Op>
    ensures { result ≡ operators.spelled_so operators.functions word.now }
{
    spelled_so(&[Op::Abs, Op::Int, Op::Max, Op::Min], word)
}

/// Whether two words are the same but for the case of their letters.
fn is_same_word(word: &[u8], other: &[u8]) -> bool
    ensures { result ≡ str_eq_ignore_ascii_case word.now other.now }
{
    word.eq_ignore_ascii_case(other)
}

/// The truth that a word says.
pub(crate) fn boolean_word(word: &[u8]) -> Option<bool>
    ensures { result ≡ operators.boolean_word word.now }
{
    if is_same_word(word, b"true") || is_same_word(word, b"yes") || is_same_word(word, b"on") {
        Some(true)
    } else if is_same_word(word, b"false")
        || is_same_word(word, b"no")
        || is_same_word(word, b"off")
    {
        Some(false)
    } else {
        None
    }
}

/// What this bare word is.
fn bare_word(alloc: Global, word: &[u8]) -> Result<Cut, NoMemory>
    requires { 0 < length word.now }
    ensures read { IfOk result (λ cut. plain_cut cut ≡ tokens.bare_word word.now (length word.now)) }
    ensures within { IfOk result (λ cut. TakesWithin cut (length word.now)) }
{
    if let Some(op) = operator_word(word) {
        return Ok(Cut::One(Token::Operator(op), word.len()));
    }
    if let Some(op) = function_word(word) {
        return Ok(Cut::One(Token::Function(op), word.len()));
    }
    let spelled = Text::from_bytes(alloc, word)?;
    if boolean_word(word).is_some() {
        return Ok(Cut::One(Token::Operand(Expr::Leaf(spelled)), word.len()));
    }
    Ok(Cut::Refused(spelled))
}

/// The bare word at the front of a text that begins with one.
pub(crate) fn word(alloc: Global, text: &[u8]) -> Result<Cut, NoMemory>
    requires { 0 < prefix_len tokens.is_word_byte text.now }
    ensures read { IfOk result (λ cut. plain_cut cut ≡ tokens.word text.now) }
    ensures within { IfOk result (λ cut. TakesWithin cut (length text.now)) }
{
    let n = word_length(text);
    let cut = bare_word(alloc, &text[..n])?;
    Ok(cut)
}
