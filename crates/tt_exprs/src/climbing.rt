//! How the tokens of an expression make a tree (expr(n), OPERATORS).
ghost use Rattle.std.specs.Prelude.{◌≡◌, IfOk, OnOk};
ghost use Rattle.tt_exprs.specs.Parsing as parsing;
ghost use Rattle.tt_exprs.specs.inside.CutTokens.{plain_token};
ghost use Rattle.tt_exprs.specs.inside.Stacks.{plain_outcome, plain_stack, plain_state, plain_pending, plain_value};
ghost use Rattle.tt_exprs.specs.inside.Stacks.{plain_waiting};

use crate::expression::Expr;
use crate::op::Op;
use crate::operators::{left_level, takes};
use crate::pending::{Pending, gathered};
use crate::tokens::Token;
use crate::values::{Row, Value, applied, parenthesized};
use std::alloc::Global;
use std::mem;
use tt_text::NoMemory;

/// What comes next.
#[derive(Drop)]
pub(crate) enum Phase {
    /// An operand.
    Wants,
    /// The `(` of this function.
    Calls(Op),
    /// An operator, or the end: this operand is there.
    Has(Value),
    /// Nothing, after a fault of form.
    Wrong,
}

/// What the tokens so far have come to.
#[derive(Drop)]
pub(crate) struct State {
    /// What waits, the innermost last.
    pub(crate) pending: Vec<Pending>,
    pub(crate) phase: Phase,
}

/// The tree, or why there is none.
#[derive(Drop)]
pub(crate) enum Outcome {
    Good(Expr),
    Malformed,
    NestedTooDeeply,
}

/// The operator before an operand that is spelled as this one.
fn as_prefix(op: Op) -> Option<Op>
    ensures { result ≡ parsing.as_prefix op }
{
    match op {
        Op::Sub => Some(Op::Neg),
        Op::Add => Some(Op::Plus),
        Op::BitNot => Some(Op::BitNot),
        Op::Not => Some(Op::Not),
        _ => None,
    }
}

/// Something more that waits.
#[inline(always)]
fn wants(state: &mut State, first: Pending) -> Result<(), NoMemory>
    ensures { OnOk result
        (plain_state state.new ≡ parsing.wants_after (plain_pending first) (plain_stack state.old.pending.items)) }
{
    state.pending.push(first)?;
    state.phase = Phase::Wants;
    Ok(())
}

/// A fault of form.
fn fails(state: &mut State) -> Result<(), NoMemory>
    ensures { OnOk result (plain_state state.new ≡ parsing.wrong) }
{
    state.phase = Phase::Wrong;
    Ok(())
}

/// An operand.
#[inline(always)]
fn has(state: &mut State, value: Value) -> Result<(), NoMemory>
    ensures { OnOk result
        (plain_state state.new
        ≡ parsing.has record { pending = plain_stack state.old.pending.items; value = plain_value value }) }
{
    state.phase = Phase::Has(value);
    Ok(())
}

/// A token if an operand is wanted.
#[inline(always)]
fn at_operand(state: &mut State, token: Token) -> Result<(), NoMemory>
    ensures { OnOk result
        (plain_state state.new ≡ parsing.at_operand (plain_stack state.old.pending.items) (plain_token token)) }
{
    match token {
        Token::Operand(expr) => has(state, Value::Nested(expr, 0)),
        Token::Operator(op) => match as_prefix(op) {
            Some(op) => wants(state, Pending::Unary(op)),
            None => fails(state),
        },
        Token::Function(op) => {
            state.phase = Phase::Calls(op);
            Ok(())
        }
        Token::Opening => wants(state, Pending::Parenthesis),
        Token::Closing | Token::Comma | Token::Colon => fails(state),
    }
}

/// A token after the name of a function.
fn at_call(alloc: Global, op: Op, state: &mut State, token: Token) -> Result<(), NoMemory>
    ensures { OnOk result
        (plain_state state.new ≡ parsing.at_call op (plain_stack state.old.pending.items) (plain_token token)) }
{
    match token {
        Token::Opening => wants(state, Pending::Arguments(op, Row::new(alloc))),
        _ => fails(state),
    }
}

/// An operator with its left operand.
#[inline(always)]
fn with_left(op: Op, value: Value) -> Pending
    ensures { plain_pending result ≡ parsing.with_left op (plain_value value) }
{
    match op {
        Op::Choose => Pending::Test(value),
        _ => Pending::Binary(op, value),
    }
}

/// An operator after an operand.
#[inline(always)]
fn operated(alloc: Global, op: Op, state: &mut State, value: Value) -> Result<(), NoMemory>
    ensures { OnOk result
        (plain_state state.new
        ≡ parsing.state_with_operator op (parsing.left_level_of op) (plain_waiting state.old.pending.items value)) }
{
    match left_level(op) {
        Some(bound) => {
            let left = gathered(alloc, bound, &mut state.pending, value)?;
            wants(state, with_left(op, left))
        }
        None => fails(state),
    }
}

/// A `:` after an operand that is whole.
fn after_colon(state: &mut State, value: Value) -> Result<(), NoMemory>
    ensures { OnOk result
        (plain_state state.new
        ≡ parsing.after_colon (plain_value value) (plain_stack state.old.pending.items)) }
{
    match state.pending.pop() {
        Some(Pending::Test(condition)) => wants(state, Pending::Branch(condition, value)),
        _ => fails(state),
    }
}

/// A `)` after an operand that is whole.
fn after_closing(state: &mut State, value: Value) -> Result<(), NoMemory>
    ensures { OnOk result
        (plain_state state.new
        ≡ parsing.after_closing (plain_value value) (plain_stack state.old.pending.items)) }
{
    match state.pending.pop() {
        Some(Pending::Parenthesis) => has(state, parenthesized(value)),
        Some(Pending::Arguments(op, operands)) => {
            let operands = operands.followed_by(value)?;
            has(state, applied(op, operands))
        }
        _ => fails(state),
    }
}

/// A `,` after an operand that is whole.
fn after_comma(state: &mut State, value: Value) -> Result<(), NoMemory>
    ensures { OnOk result
        (plain_state state.new
        ≡ parsing.after_comma (plain_value value) (plain_stack state.old.pending.items)) }
{
    match state.pending.pop() {
        Some(Pending::Arguments(op, operands)) if takes(op, 2) => {
            let operands = operands.followed_by(value)?;
            wants(state, Pending::Arguments(op, operands))
        }
        _ => fails(state),
    }
}

/// A token after an operand.
#[inline(always)]
fn at_operator(alloc: Global, state: &mut State, value: Value, token: Token) -> Result<(), NoMemory>
    ensures { OnOk result
        (plain_state state.new
        ≡ parsing.at_operator (plain_waiting state.old.pending.items value) (plain_token token)) }
{
    match token {
        Token::Operator(op) => operated(alloc, op, state, value),
        Token::Closing => {
            let whole = gathered(alloc, 0, &mut state.pending, value)?;
            after_closing(state, whole)
        }
        Token::Comma => {
            let whole = gathered(alloc, 0, &mut state.pending, value)?;
            after_comma(state, whole)
        }
        Token::Colon => {
            let whole = gathered(alloc, 0, &mut state.pending, value)?;
            after_colon(state, whole)
        }
        Token::Operand(_) | Token::Function(_) | Token::Opening => fails(state),
    }
}

/// One token more.
#[inline(always)]
pub(crate) fn step(alloc: Global, state: &mut State, token: Token) -> Result<(), NoMemory>
    ensures { OnOk result (plain_state state.new ≡ parsing.step (plain_state state.old) (plain_token token)) }
{
    match mem::replace(&mut state.phase, Phase::Wrong) {
        Phase::Wants => at_operand(state, token),
        Phase::Calls(op) => at_call(alloc, op, state, token),
        Phase::Has(value) => at_operator(alloc, state, value, token),
        Phase::Wrong => fails(state),
    }
}

/// What the tokens have come to at their end.
pub(crate) fn finished(alloc: Global, state: State) -> Result<Outcome, NoMemory>
    ensures { IfOk result (λ outcome. plain_outcome outcome ≡ parsing.final_outcome (plain_state state)) }
{
    let State { mut pending, phase } = state;
    let Phase::Has(value) = phase else {
        return Ok(Outcome::Malformed);
    };
    let value = gathered(alloc, 0, &mut pending, value)?;
    if !pending.is_empty() {
        return Ok(Outcome::Malformed);
    }
    match value {
        Value::Nested(expr, _) => Ok(Outcome::Good(expr)),
        Value::TooDeep => Ok(Outcome::NestedTooDeeply),
    }
}
