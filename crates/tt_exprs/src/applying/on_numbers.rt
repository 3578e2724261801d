//! Operators on numbers that were read already.
ghost use Rattle.std.specs.Prelude.{◌≡◌, IsTrue, fold, length};
ghost use Rattle.tt_exprs.specs.Apply as apply;
ghost use Rattle.tt_exprs.specs.Operators.{takes};

use super::numbers::picked;
use crate::op::Op;
use tt_number::{ArithFault, NumOp, OneOp, binary, unary};

/// What the operator or function gives on its operands' numbers, as `apply` gives it on their texts: the
/// number itself, from a test 1 or 0; or why there is none.
///
/// There are as many operands as it has, for `Max` and `Min` one or more. `TextEqual`, `TextNotEqual`,
/// `Member` and `NotMember`, which take texts, and `And`, `Or` and `Choose`, which evaluate only what they
/// need, are none of its operators.
pub fn apply_to_numbers(op: Op, numbers: &[i64]) -> Result<i64, ArithFault>
    requires numbers { IsTrue (apply.takes_numbers op) }
    requires count { IsTrue (takes op (length numbers.now)) }
    ensures answer { result ≡ apply.numbers_answer op numbers.now }
{
    match (op, numbers) {
        (_, []) => unreachable!(),
        (Op::Max | Op::Min, [first, later @ ..]) => Ok(extreme(op, *first, later)),
        (_, [a]) => on_two(op, *a, *a),
        (_, [a, b, ..]) => on_two(op, *a, *b),
    }
}

/// The greatest of these numbers, or for `Min` the least.
fn extreme(op: Op, first: i64, later: &[i64]) -> i64
    ensures { result ≡ fold (apply.extreme_number op) first later.now }
{
    let mut best = first;
    for number in later {
        best = picked(op, best, *number);
    }
    best
}

fn on_two(op: Op, a: i64, b: i64) -> Result<i64, ArithFault>
    ensures { result ≡ apply.on_numbers op a b }
{
    match op {
        Op::Neg => unary(OneOp::Neg, a),
        Op::Plus | Op::Int => unary(OneOp::Plus, a),
        Op::BitNot => unary(OneOp::BitNot, a),
        Op::Abs => unary(OneOp::Abs, a),
        Op::Not => Ok(i64::from(a == 0)),
        Op::Pow => binary(NumOp::Pow, a, b),
        Op::Mul => binary(NumOp::Mul, a, b),
        Op::Div => binary(NumOp::Div, a, b),
        Op::Mod => binary(NumOp::Mod, a, b),
        Op::Add => binary(NumOp::Add, a, b),
        Op::Sub => binary(NumOp::Sub, a, b),
        Op::Shl => binary(NumOp::Shl, a, b),
        Op::Shr => binary(NumOp::Shr, a, b),
        Op::Less => Ok(i64::from(a < b)),
        Op::Greater => Ok(i64::from(a > b)),
        Op::LessEqual => Ok(i64::from(a <= b)),
        Op::GreaterEqual => Ok(i64::from(a >= b)),
        Op::Equal => Ok(i64::from(a == b)),
        Op::NotEqual => Ok(i64::from(a != b)),
        Op::BitAnd => binary(NumOp::BitAnd, a, b),
        Op::BitXor => binary(NumOp::BitXor, a, b),
        Op::BitOr => binary(NumOp::BitOr, a, b),
        _ => Ok(a),
    }
}
