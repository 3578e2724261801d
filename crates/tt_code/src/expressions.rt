//! The code of expressions.
ghost use Rattle.std.specs.Prelude.{◌≡◌, OnOk, map};
ghost use Rattle.tt_exprs.specs.Parsing.{in_a_row};
ghost use Rattle.tt_exprs.specs.Plain.{plain_expr};
ghost use Rattle.tt_code.specs.Making as making;

use crate::builder::Builder;
use crate::code::Instruction;
use crate::kind::{Kind, kind_of};
use crate::words::push_parts;
use std::alloc::Global;
use tt_exprs::{Expr, Op};
use tt_text::{NoMemory, Text};

#[cycle(expression)]
pub(crate) fn push_expression(
    alloc: Global,
    expression: &Expr,
    code: &mut Builder,
) -> Result<(), NoMemory>
    ensures { OnOk result (code.new ≡ making.expression_code (plain_expr expression.now) code.old) }
{
    match expression {
        Expr::Leaf(text) => code.push(Instruction::literal(alloc, text.copy()?)?),
        Expr::Words(parts) => push_parts(alloc, parts, code),
        Expr::Node(op, operands) => push_operator(alloc, kind_of(*op), *op, operands, code),
    }
}

#[cycle(expression)]
fn push_operator(
    alloc: Global,
    kind: Kind,
    op: Op,
    operands: &[Expr],
    code: &mut Builder,
) -> Result<(), NoMemory>
    ensures { OnOk result
        (code.new ≡ making.operator_code kind op (in_a_row (map plain_expr operands.now)) code.old) }
{
    match kind {
        Kind::Eager => {
            code.push(Instruction::Apply(op, operands.len()))?;
            push_values(alloc, operands, code)?;
            Ok(())
        }
        Kind::Both => push_both(alloc, operands, code),
        Kind::Either => push_either(alloc, operands, code),
        Kind::OneOf => push_one_of(alloc, operands, code),
    }
}

#[cycle(expression)]
fn push_values(alloc: Global, operands: &[Expr], code: &mut Builder) -> Result<(), NoMemory>
    ensures { OnOk result (code.new ≡ making.values_code (in_a_row (map plain_expr operands.now)) code.old) }
{
    let mut left = operands.len();
    while left > 0 {
        left -= 1;
        push_expression(alloc, &operands[left], code)?;
    }
    Ok(())
}

/// `&&`: the second operand is passed over if the first is false.
#[cycle(expression)]
fn push_both(alloc: Global, operands: &[Expr], code: &mut Builder) -> Result<(), NoMemory>
    ensures { OnOk result
        (code.new ≡ making.both_code (in_a_row (map plain_expr operands.now)) code.old) }
{
    if operands.len() != 2 {
        code.push(Instruction::WrongOperands)?;
        return Ok(());
    }
    code.push(Instruction::literal(alloc, Text::from_bytes(alloc, b"0")?)?)?;
    let end = code.len();
    push_truth(alloc, &operands[1], code)?;
    code.push(Instruction::SkipIfFalse(code.len().saturating_sub(end)))?;
    push_expression(alloc, &operands[0], code)?;
    Ok(())
}

/// `||`: the second operand is passed over if the first is true.
#[cycle(expression)]
fn push_either(alloc: Global, operands: &[Expr], code: &mut Builder) -> Result<(), NoMemory>
    ensures { OnOk result
        (code.new ≡ making.either_code (in_a_row (map plain_expr operands.now)) code.old) }
{
    if operands.len() != 2 {
        code.push(Instruction::WrongOperands)?;
        return Ok(());
    }
    code.push(Instruction::literal(alloc, Text::from_bytes(alloc, b"1")?)?)?;
    let end = code.len();
    push_truth(alloc, &operands[1], code)?;
    code.push(Instruction::SkipIfTrue(code.len().saturating_sub(end)))?;
    push_expression(alloc, &operands[0], code)?;
    Ok(())
}

/// `? :`: one of the later operands is passed over.
#[cycle(expression)]
fn push_one_of(alloc: Global, operands: &[Expr], code: &mut Builder) -> Result<(), NoMemory>
    ensures { OnOk result
        (code.new ≡ making.one_of_code (in_a_row (map plain_expr operands.now)) code.old) }
{
    if operands.len() != 3 {
        code.push(Instruction::WrongOperands)?;
        return Ok(());
    }
    let end = code.len();
    push_expression(alloc, &operands[2], code)?;
    let third = code.len();
    code.push(Instruction::Skip(third.saturating_sub(end)))?;
    push_expression(alloc, &operands[1], code)?;
    code.push(Instruction::SkipIfFalse(code.len().saturating_sub(third)))?;
    push_expression(alloc, &operands[0], code)?;
    Ok(())
}

/// An operand whose truth counts, before an instruction for where it isn't evaluated.
#[cycle(expression)]
fn push_truth(alloc: Global, operand: &Expr, code: &mut Builder) -> Result<(), NoMemory>
    ensures { OnOk result (code.new ≡ making.truth_code (plain_expr operand.now) code.old) }
{
    code.push(Instruction::Skip(1))?;
    code.push(Instruction::Truth)?;
    push_expression(alloc, operand, code)
}
