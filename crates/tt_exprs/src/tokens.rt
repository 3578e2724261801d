//! The tokens of an expression, cut from the left (expr(n), OPERANDS and OPERATORS).
ghost use Rattle.std.specs.Prelude.{◌≡◌, ◌≢◌, ◌∷◌, ◌+◌, ◌-◌, ◌<◌, ◌≤◌, ◌||◌, ◌==◌, true, false, IfOk, IfSome, length};
ghost use Rattle.std.specs.Prelude.{take, drop, slice_index};
ghost use Rattle.tt_exprs.specs.inside.CutTokens.{plain_cut, TakesWithin};
ghost use Rattle.tt_exprs.specs.Tokens as tokens;
ghost use Rattle.tt_script.specs.Plain.{plain_part};
ghost use Rattle.tt_text.specs.Characters as characters;

use crate::expression::Expr;
use crate::numbers::number_length;
use crate::op::Op;
use crate::signs::sign;
use crate::words::{begins_word, word};
use std::alloc::Global;
use tt_script::{Part, braced_text, quoted_parts, script_part, variable_part};
use tt_text::{NoMemory, Text};

/// A token. `-` and `+` are the operators that stand between operands, wherever they stand.
#[derive(Drop)]
pub(crate) enum Token {
    Operand(Expr),
    Operator(Op),
    /// The name of a function.
    Function(Op),
    /// `(`
    Opening,
    /// `)`
    Closing,
    Comma,
    Colon,
}

/// What the front of a text is cut into.
#[derive(Drop)]
pub(crate) enum Cut {
    /// A token, and how many bytes it takes.
    One(Token, usize),
    /// A bare word that is none.
    Refused(Text),
    /// No token begins here.
    NoneHere,
}

/// Whether tokens may be parted by this byte: 9 to 13 and 32.
pub(crate) fn is_white_space(byte: u8) -> bool
    ensures { result ≡ characters.is_white_space byte }
{
    matches!(byte, 9..=13 | b' ')
}

/// What stands in quotes, with the text after the first one.
fn quoted(alloc: Global, text: &[u8]) -> Result<Cut, NoMemory>
    requires { length text.now < usize.MAX }
    ensures read { IfOk result (λ cut. plain_cut cut ≡ tokens.quote_cut text.now) }
    ensures within { IfOk result (λ cut. TakesWithin cut (length text.now + 1)) }
{
    match quoted_parts(alloc, text)? {
        Some((parts, n)) => Ok(Cut::One(Token::Operand(Expr::Words(parts)), n + 2)),
        None => Ok(Cut::NoneHere),
    }
}

/// What stands in braces, with the text after the first one.
fn in_braces(alloc: Global, text: &[u8]) -> Result<Cut, NoMemory>
    requires { length text.now < usize.MAX }
    ensures read { IfOk result (λ cut. plain_cut cut ≡ tokens.in_braces text.now) }
    ensures within { IfOk result (λ cut. TakesWithin cut (length text.now + 1)) }
{
    match braced_text(alloc, text)? {
        Some((inside, n)) => Ok(Cut::One(Token::Operand(Expr::Leaf(inside)), n + 2)),
        None => Ok(Cut::NoneHere),
    }
}

/// A variable or a script, which is to be substituted.
fn one_part(alloc: Global, part: Part, n: usize) -> Result<Cut, NoMemory>
    requires { n < usize.MAX }
    ensures read { IfOk result (λ cut. plain_cut cut ≡ tokens.of_one_part (plain_part part) n) }
    ensures within { IfOk result (λ cut. TakesWithin cut (n + 1)) }
{
    if let Part::Letters(_) = part {
        return Ok(Cut::NoneHere);
    }
    let parts = vec![in alloc; part]?;
    Ok(Cut::One(Token::Operand(Expr::Words(parts)), n + 1))
}

/// What a `$` begins, with the text after it.
fn variable(alloc: Global, text: &[u8]) -> Result<Cut, NoMemory>
    requires { length text.now < usize.MAX }
    ensures read { IfOk result (λ cut. plain_cut cut ≡ tokens.substitution_cut 36 text.now) }
    ensures within { IfOk result (λ cut. TakesWithin cut (length text.now + 1)) }
{
    match variable_part(alloc, text)? {
        Some((part, n)) => one_part(alloc, part, n),
        None => Ok(Cut::NoneHere),
    }
}

/// What a `[` begins, with the text after it.
fn script(alloc: Global, text: &[u8]) -> Result<Cut, NoMemory>
    requires { length text.now < usize.MAX }
    ensures read { IfOk result (λ cut. plain_cut cut ≡ tokens.substitution_cut 91 text.now) }
    ensures within { IfOk result (λ cut. TakesWithin cut (length text.now + 1)) }
{
    match script_part(alloc, text)? {
        Some((part, n)) => one_part(alloc, part, n),
        None => Ok(Cut::NoneHere),
    }
}

/// The token that a text begins with, whose first byte begins neither a number nor a word.
fn other(alloc: Global, text: &[u8]) -> Result<Cut, NoMemory>
    ensures read { IfOk result (λ cut. plain_cut cut ≡ tokens.other text.now) }
    ensures within { IfOk result (λ cut. TakesWithin cut (length text.now)) }
{
    let [first, rest @ ..] = text else {
        return Ok(Cut::NoneHere);
    };
    match *first {
        b'"' => quoted(alloc, rest),
        b'{' => in_braces(alloc, rest),
        b'$' => variable(alloc, rest),
        b'[' => script(alloc, rest),
        _ => Ok(sign(text)),
    }
}

/// The token that a text begins with, which begins with this byte.
fn first_token(alloc: Global, first: u8, text: &[u8]) -> Result<Cut, NoMemory>
    requires here { 0 < length text.now }
    requires first { first ≡ slice_index text.now 0 }
    ensures read { IfOk result (λ cut. plain_cut cut ≡ tokens.token first (drop 1 text.now)) }
    ensures within { IfOk result (λ cut. TakesWithin cut (length text.now)) }
{
    if begins_word(first) {
        return word(alloc, text);
    }
    let digits = number_length(text);
    if digits > 0 {
        let number = Text::from_bytes(alloc, &text[..digits])?;
        return Ok(Cut::One(Token::Operand(Expr::Leaf(number)), digits));
    }
    other(alloc, text)
}

/// The token that begins here.
pub(crate) fn token_at(alloc: Global, text: &[u8], at: usize) -> Result<Cut, NoMemory>
    requires { at < length text.now }
    ensures read { IfOk result
        (λ cut. plain_cut cut ≡ tokens.token (slice_index text.now at) (drop (at + 1) text.now)) }
    ensures within { IfOk result (λ cut. TakesWithin cut (length text.now - at)) }
{
    let cut = first_token(alloc, text[at], &text[at..])?;
    Ok(cut)
}
