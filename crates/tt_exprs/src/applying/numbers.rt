//! Operands that are whole numbers.
ghost use Rattle.std.specs.Prelude.{◌≡◌, ◌<◌, length};
ghost use Rattle.tt_exprs.specs.Apply.{extreme_of, on_one_of, on_two_of, extreme_number, whole_operand, wholes};

use super::refusal::Refusal;
use crate::op::Op;
use tt_number::{NumOp, NumberFault, OneOp, binary, read_whole, unary};
use tt_text::Text;

#[tactic(auto, unfolding(crate::specs::Apply::whole_operand))]
fn whole(op: Op, text: &Text) -> Result<i64, Refusal>
    ensures { result ≡ whole_operand op text.now }
{
    match read_whole(text.as_bytes()) {
        Ok(number) => Ok(number),
        Err(NumberFault::NotWhole) => Err(Refusal::NotNumeric(op)),
        Err(NumberFault::TooLarge) => Err(Refusal::TooLarge),
        Err(NumberFault::Float) => Err(Refusal::Float),
    }
}

pub(super) fn on_one(op: Op, number_op: OneOp, operands: &[Text]) -> Result<i64, Refusal>
    requires { length operands.now ≡ 1 }
    ensures { result ≡ on_one_of op number_op operands.now }
{
    let [a] = operands else { unreachable!() };
    unary(number_op, whole(op, a)?).map_err(Refusal::Arith)
}

pub(super) fn on_two(op: Op, number_op: NumOp, operands: &[Text]) -> Result<i64, Refusal>
    requires { length operands.now ≡ 2 }
    ensures { result ≡ on_two_of op number_op operands.now }
{
    let [a, b] = operands else { unreachable!() };
    let a = whole(op, a)?;
    binary(number_op, a, whole(op, b)?).map_err(Refusal::Arith)
}

/// The greatest number, or for `Min` the least.
pub(super) fn extreme(op: Op, operands: &[Text]) -> Result<i64, Refusal>
    requires { 0 < length operands.now }
    ensures { result ≡ extreme_of op (wholes op operands.now) }
{
    let [first, later @ ..] = operands else {
        unreachable!()
    };
    let mut best = whole(op, first)?;
    for operand in later {
        best = picked(op, best, whole(op, operand)?);
    }
    Ok(best)
}

pub(super) fn picked(op: Op, a: i64, b: i64) -> i64
    ensures { result ≡ extreme_number op a b }
{
    match op {
        Op::Min => a.min(b),
        _ => a.max(b),
    }
}
