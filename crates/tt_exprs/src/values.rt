//! Operands, and how deeply they are nested.
ghost use Rattle.std.specs.Prelude.{◌≡◌, ◌≤◌, IfOk};
ghost use Rattle.tt_exprs.specs.Parsing as parsing;
ghost use Rattle.tt_exprs.specs.inside.Stacks.{plain_row, plain_value};
ghost use Rattle.tt_exprs.specs.Plain.{plain_expr};

use crate::expression::Expr;
use crate::op::Op;
use std::alloc::Global;
use tt_text::NoMemory;

/// How deeply operators, functions and parentheses may be nested.
pub const MOST_NESTED: usize = 1000;

/// An operand.
#[derive(Drop)]
pub(crate) enum Value {
    /// Its tree, and how deeply that is nested.
    Nested(Expr, usize),
    /// It is nested too deeply.
    TooDeep,
}

/// Operands in a row.
#[derive(Drop)]
pub(crate) enum Row {
    /// Their trees, and how deeply the deepest is nested.
    Operands(Vec<Expr>, usize),
    /// One is nested too deeply.
    TooDeep,
}

impl Row {
    /// No operands.
    pub(crate) fn new(alloc: Global) -> Self
        ensures { plain_row result ≡ parsing.no_operands }
    {
        Row::Operands(Vec::new(alloc), 0)
    }

    /// These two operands. Most rows have two, so it takes room for exactly these.
    #[inline(always)]
    pub(crate) fn pair(alloc: Global, left: Value, right: Value) -> Result<Row, NoMemory>
        ensures { IfOk result (λ row. plain_row row
            ≡ parsing.followed_by (parsing.followed_by parsing.no_operands (plain_value left)) (plain_value right)) }
    {
        match (left, right) {
            (Value::Nested(left, depth), Value::Nested(right, other)) => {
                let mut exprs = Vec::with_capacity(alloc, 2)?;
                exprs.push(left)?;
                exprs.push(right)?;
                Ok(Row::Operands(exprs, depth.max(other)))
            }
            _ => Ok(Row::TooDeep),
        }
    }

    /// One operand more.
    #[inline(always)]
    pub(crate) fn followed_by(self, value: Value) -> Result<Row, NoMemory>
        ensures { IfOk result (λ row. plain_row row ≡ parsing.followed_by (plain_row self) (plain_value value)) }
    {
        match (self, value) {
            (Row::Operands(mut exprs, deepest), Value::Nested(expr, depth)) => {
                exprs.push(expr)?;
                Ok(Row::Operands(exprs, deepest.max(depth)))
            }
            _ => Ok(Row::TooDeep),
        }
    }
}

/// A tree that is one level around what is nested so deeply.
#[inline(always)]
fn around(expr: Expr, depth: usize) -> Value
    ensures { plain_value result ≡ parsing.around (plain_expr expr) depth }
{
    if depth < MOST_NESTED {
        Value::Nested(expr, depth + 1)
    } else {
        Value::TooDeep
    }
}

/// Parentheses around an operand.
#[inline(always)]
pub(crate) fn parenthesized(value: Value) -> Value
    ensures { plain_value result ≡ parsing.parenthesized (plain_value value) }
{
    match value {
        Value::Nested(expr, depth) => around(expr, depth),
        Value::TooDeep => Value::TooDeep,
    }
}

/// An operator or a function with its operands.
#[inline(always)]
pub(crate) fn applied(op: Op, operands: Row) -> Value
    ensures { plain_value result ≡ parsing.operator_value op (plain_row operands) }
{
    match operands {
        Row::Operands(exprs, deepest) => around(Expr::Node(op, exprs), deepest),
        Row::TooDeep => Value::TooDeep,
    }
}
