//! What waits for an operand.
ghost use Rattle.std.specs.Prelude.{◌≡◌, ◌≤◌, IfOk};
ghost use Rattle.tt_exprs.specs.Parsing as parsing;
ghost use Rattle.tt_exprs.specs.inside.Stacks.{plain_pending, plain_stack, plain_value, plain_waiting};

use crate::op::Op;
use crate::operators::level;
use crate::values::{Row, Value, applied};
use std::alloc::Global;
use tt_text::NoMemory;

/// What waits for an operand.
#[derive(Drop)]
pub(crate) enum Pending {
    /// An operator before its operand.
    Unary(Op),
    /// An operator with its left operand.
    Binary(Op, Value),
    /// What stands before a `?`.
    Test(Value),
    /// What stands before a `?`, and what before its `:`.
    Branch(Value, Value),
    Parenthesis,
    /// A function with the operands before the last comma.
    Arguments(Op, Row),
}

/// Whether the level of an operator between operands is not below this bound.
#[inline(always)]
fn reaches(bound: u8, op: Op) -> bool
    ensures { result ≡ parsing.reaches bound (parsing.level_of op) }
{
    match level(op) {
        Some(level) => level >= bound,
        None => false,
    }
}

/// Whether what waits takes an operand before an operator that binds its left operand at this level.
#[inline(always)]
fn binds(bound: u8, pending: &Pending) -> bool
    ensures { result ≡ parsing.binds bound (plain_pending pending.now) }
{
    match pending {
        Pending::Unary(_) => true,
        Pending::Binary(op, _) => reaches(bound, *op),
        Pending::Branch(..) => reaches(bound, Op::Choose),
        Pending::Test(_) | Pending::Parenthesis | Pending::Arguments(..) => false,
    }
}

/// What an operator makes with its last operand.
#[inline(always)]
fn closed(alloc: Global, pending: Pending, value: Value) -> Result<Value, NoMemory>
    ensures { IfOk result
        (λ whole. plain_value whole ≡ parsing.value_of_pending (plain_pending pending) (plain_value value)) }
{
    match pending {
        Pending::Unary(op) => {
            let operands = Row::new(alloc).followed_by(value)?;
            Ok(applied(op, operands))
        }
        Pending::Binary(op, left) => {
            let operands = Row::pair(alloc, left, value)?;
            Ok(applied(op, operands))
        }
        Pending::Branch(condition, chosen) => {
            let operands = Row::pair(alloc, condition, chosen)?.followed_by(value)?;
            Ok(applied(Op::Choose, operands))
        }
        Pending::Test(_) | Pending::Parenthesis | Pending::Arguments(..) => Ok(value),
    }
}

/// What takes the operand before an operator that binds its left operand at this level.
pub(crate) fn gathered(
    alloc: Global,
    bound: u8,
    pending: &mut Vec<Pending>,
    mut value: Value,
) -> Result<Value, NoMemory>
    ensures { IfOk result
        (λ left. plain_waiting pending.new.items left
        ≡ parsing.gathered bound (plain_stack pending.old.items) (plain_value value)) }
{
    while let Some(last) = pending.pop() {
        if !binds(bound, &last) {
            pending.push(last)?;
            break;
        }
        value = closed(alloc, last, value)?;
    }
    Ok(value)
}
