//! The operators of an expression that are spelled with signs (expr(n), OPERATORS).
ghost use Rattle.std.specs.Prelude.{◌≡◌, ◌∷◌, ℕ, List, length, IfSome, IsTrue, nat_eq};
ghost use Rattle.std.specs.List.{starts_with};
ghost use Rattle.tt_exprs.specs.Operators as operators;
ghost use Rattle.tt_exprs.specs.inside.CutTokens.{plain_cut, TakesWithin};
ghost use Rattle.tt_exprs.specs.Tokens as tokens;

use crate::op::Op;
use crate::operators::spelling;
use crate::tokens::{Cut, Token};

/// The operators whose sign begins with this byte, the longer signs first.
fn begun_by(byte: u8) -> &'static [Op]
    ensures { (rest : List ℕ) →
        operators.first_spelled result.now (byte ∷ rest)
        ≡ operators.first_spelled operators.sign_operators (byte ∷ rest) }
{
    match byte {
        b'*' => &[Op::Pow, Op::Mul],
        b'<' => &[Op::Shl, Op::LessEqual, Op::Less],
        b'>' => &[Op::Shr, Op::GreaterEqual, Op::Greater],
        b'=' => &[Op::Equal],
        b'!' => &[Op::NotEqual, Op::Not],
        b'&' => &[Op::And, Op::BitAnd],
        b'|' => &[Op::Or, Op::BitOr],
        b'~' => &[Op::BitNot],
        b'/' => &[Op::Div],
        b'%' => &[Op::Mod],
        b'+' => &[Op::Add],
        b'-' => &[Op::Sub],
        b'^' => &[Op::BitXor],
        b'?' => &[Op::Choose],
        _ => &[],
    }
}

/// The first of these operators whose spelling the text begins with.
fn first_spelled(ops: &[Op], text: &[u8]) -> Option<Op>
    ensures { result ≡ operators.first_spelled ops.now text.now }
{
    ops.iter()
        .copied()
        .find(|op| text.starts_with(spelling(*op)))
}

/// A sign that is no operator.
fn mark(sign: u8) -> Cut
    ensures read { (rest : List ℕ) → plain_cut result ≡ tokens.mark (sign ∷ rest) }
    ensures within { TakesWithin result 1 }
{
    match sign {
        b'(' => Cut::One(Token::Opening, 1),
        b')' => Cut::One(Token::Closing, 1),
        b',' => Cut::One(Token::Comma, 1),
        b':' => Cut::One(Token::Colon, 1),
        _ => Cut::NoneHere,
    }
}

/// The longest sign that a text begins with.
pub(crate) fn sign(text: &[u8]) -> Cut
    ensures read { plain_cut result ≡ tokens.sign text.now }
    ensures within { TakesWithin result (length text.now) }
{
    let [first, ..] = text else {
        return Cut::NoneHere;
    };
    match first_spelled(begun_by(*first), text) {
        Some(op) => Cut::One(Token::Operator(op), spelling(op).len()),
        None => mark(*first),
    }
}
