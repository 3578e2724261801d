ghost use Rattle.std.specs.Prelude.{◌≡◌, length, IfOk, IsFalse, IsTrue};
ghost use Rattle.tt_exprs.specs.Apply.{answer_of, operator_outcome, is_lazy};
ghost use Rattle.tt_exprs.specs.Operators.{takes};

mod booleans;
mod comparison;
mod numbers;
mod on_numbers;
mod refusal;
mod results;

use crate::op::Op;
use booleans::negation;
pub use booleans::{boolean, truth};
use comparison::{is_member, is_same_text, order};
use numbers::{extreme, on_one, on_two};
pub use on_numbers::apply_to_numbers;
use refusal::{Refusal, message};
pub use results::result;
use std::alloc::Global;
use tt_calls::Outcome;
use tt_number::{NumOp, OneOp, whole_text};
use tt_text::{NoMemory, Text};

/// What the operator or function gives on its operands' values, by expr(n), Operators, and mathfunc(n).
///
/// There are as many operands as it has, for `Max` and `Min` one or more; `And`, `Or` and `Choose`, which
/// evaluate only what they need, are none of its operators. Operands are tested from the left. The
/// outcome is `Fine` with a whole number in decimal, 1 or 0 from a test; or it is `Failed` with its
/// message, which is also its trace, if
///
/// - arithmetic has an operand that is no number, is a floating-point number or lies past 64 bits, or has
///   a result past 64 bits, a divisor of 0, a negative shift or 0 to a negative power;
/// - one of `< > <= >= == !=` has an operand that is a floating-point number or lies past 64 bits;
/// - `!` has an operand that is neither a whole number nor a boolean word;
/// - `in` or `ni` has a right operand that is no list.
///
/// `NoMemory` if the memory for the outcome or for the items of a list is refused.
pub fn apply(alloc: Global, op: Op, operands: &[Text]) -> Result<Outcome, NoMemory>
    requires eager { IsFalse (is_lazy op) }
    requires count { IsTrue (takes op (length operands.now)) }
    ensures answer { IfOk result (λ outcome. outcome ≡ operator_outcome op operands.now) }
{
    match answer(alloc, op, operands)? {
        Ok(number) => Ok(Outcome::fine(alloc, whole_text(alloc, number)?)),
        Err(refusal) => Outcome::failed(message(alloc, &refusal)?),
    }
}

fn answer(alloc: Global, op: Op, operands: &[Text]) -> Result<Result<i64, Refusal>, NoMemory>
    requires eager { IsFalse (is_lazy op) }
    requires count { IsTrue (takes op (length operands.now)) }
    ensures { IfOk result (λ answer. answer ≡ answer_of op operands.now) }
{
    match op {
        Op::Neg => Ok(on_one(op, OneOp::Neg, operands)),
        Op::Plus => Ok(on_one(op, OneOp::Plus, operands)),
        Op::BitNot => Ok(on_one(op, OneOp::BitNot, operands)),
        Op::Not => negation(alloc, operands),
        Op::Pow => Ok(on_two(op, NumOp::Pow, operands)),
        Op::Mul => Ok(on_two(op, NumOp::Mul, operands)),
        Op::Div => Ok(on_two(op, NumOp::Div, operands)),
        Op::Mod => Ok(on_two(op, NumOp::Mod, operands)),
        Op::Add => Ok(on_two(op, NumOp::Add, operands)),
        Op::Sub => Ok(on_two(op, NumOp::Sub, operands)),
        Op::Shl => Ok(on_two(op, NumOp::Shl, operands)),
        Op::Shr => Ok(on_two(op, NumOp::Shr, operands)),
        Op::Less => Ok(order(operands).map(|order| i64::from(order.is_lt()))),
        Op::Greater => Ok(order(operands).map(|order| i64::from(order.is_gt()))),
        Op::LessEqual => Ok(order(operands).map(|order| i64::from(order.is_le()))),
        Op::GreaterEqual => Ok(order(operands).map(|order| i64::from(order.is_ge()))),
        Op::Equal => Ok(order(operands).map(|order| i64::from(order.is_eq()))),
        Op::NotEqual => Ok(order(operands).map(|order| i64::from(order.is_ne()))),
        Op::TextEqual => Ok(Ok(i64::from(is_same_text(operands)))),
        Op::TextNotEqual => Ok(Ok(i64::from(!is_same_text(operands)))),
        Op::Member => Ok(is_member(alloc, operands)?.map(i64::from)),
        Op::NotMember => Ok(is_member(alloc, operands)?.map(|member| i64::from(!member))),
        Op::BitAnd => Ok(on_two(op, NumOp::BitAnd, operands)),
        Op::BitXor => Ok(on_two(op, NumOp::BitXor, operands)),
        Op::BitOr => Ok(on_two(op, NumOp::BitOr, operands)),
        Op::Abs => Ok(on_one(op, OneOp::Abs, operands)),
        Op::Int => Ok(on_one(op, OneOp::Plus, operands)),
        Op::Max | Op::Min => Ok(extreme(op, operands)),
        Op::And | Op::Or | Op::Choose => unreachable!(),
    }
}
