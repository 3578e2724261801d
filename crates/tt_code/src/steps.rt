//! What the instructions do.
ghost use Rattle.std.specs.Prelude.{◌≡◌, ◌∷◌, ◌++◌, [], IfOk, IfSome, IsTrue, List, ℕ, length, reverse};
ghost use Rattle.std.specs.Fmt.{signed_decimal};
ghost use Rattle.tt_calls.specs.Outcomes.{fine};
ghost use Rattle.tt_exprs.specs.Apply.{operator_outcome, takes_numbers};
ghost use Rattle.tt_exprs.specs.Operators.{takes};
ghost use Rattle.tt_code.specs.Code.{Next, act};
ghost use Rattle.tt_code.specs.Needs.{expansion_needs, unless_failed};
ghost use Rattle.tt_code.specs.inside.Turns.{step_needs};
ghost use Rattle.tt_code.specs.declared.code.Instruction.TheVariants as code;

use crate::code::Instruction;
use crate::stack::Stack;
use crate::truths::{bit, truth_value};
use std::alloc::Global;
use tt_calls::{Code, Outcome};
use tt_exprs::{Op, apply, apply_to_numbers, result};
use tt_text::{NoMemory, Text};
use tt_value::{Value, texts_of, values_of};

/// Where running code halts.
#[derive(Debug, Drop)]
pub enum Halt {
    /// It goes on with the value of the variable of this name.
    Variable(Text),
    /// It goes on with the value of an element: the array's name, and the index.
    Element(Text, Text),
    /// It goes on with the result of this script.
    Script(Text),
    /// It has this error.
    Refused(Text),
    /// An expression has come to this value.
    Value(Value),
    /// A command's words have come to these values.
    Values(Vec<Value>),
}

/// What comes after an instruction.
#[derive(Drop)]
pub(crate) enum Step {
    /// It goes on after so many instructions more.
    Goes(usize),
    /// It halts.
    Halts(Halt),
}

/// One instruction.
pub(crate) fn perform(
    alloc: Global,
    instruction: &Instruction,
    values: &mut Stack,
) -> Result<Step, NoMemory>
    ensures { IfOk result (λ step. (next : Next)
        → act instruction.now next values.old ≡ step_needs step next values.new) }
{
    match instruction {
        Instruction::Push(value) => push(values, value.copy()?),
        Instruction::Variable(name) => Ok(Step::Halts(Halt::Variable(name.copy()?))),
        Instruction::Element(name) => element(alloc, name, values),
        Instruction::Script(text) => Ok(Step::Halts(Halt::Script(text.copy()?))),
        Instruction::Append => append(alloc, values),
        Instruction::Expand => expand(alloc, values),
        Instruction::Apply(op, count) => apply_to(alloc, *op, *count, values),
        Instruction::Truth => truth_of(alloc, values),
        Instruction::Skip(count) => Ok(Step::Goes(*count)),
        Instruction::SkipIfFalse(count) => skip_if_false(alloc, *count, values),
        Instruction::SkipIfTrue(count) => skip_if_true(alloc, *count, values),
        Instruction::Result => result_of(alloc, values),
        Instruction::Give => give(alloc, values),
        Instruction::WrongOperands => wrong_operands(alloc),
    }
}

fn wrong_operands(alloc: Global) -> Result<Step, NoMemory>
    ensures { IfOk result (λ step. (next : Next) (values : List (List ℕ))
        → act code.WrongOperands next values ≡ step_needs step next values) }
{
    let message = Text::from_bytes(alloc, b"wrong number of operands")?;
    Ok(Step::Halts(Halt::Refused(message)))
}

fn push(values: &mut Stack, value: Value) -> Result<Step, NoMemory>
    ensures { IfOk result (λ step. (next : Next)
        → act (code.Push value) next values.old ≡ step_needs step next values.new) }
{
    values.push(value)?;
    Ok(Step::Goes(0))
}

fn element(alloc: Global, name: &Text, values: &mut Stack) -> Result<Step, NoMemory>
    ensures { IfOk result (λ step. (next : Next)
        → act (code.Element name.now) next values.old ≡ step_needs step next values.new) }
{
    match values.pop() {
        Some(index) => Ok(Step::Halts(Halt::Element(name.copy()?, index.into_text(alloc)?))),
        None => wrong_operands(alloc),
    }
}

fn append(alloc: Global, values: &mut Stack) -> Result<Step, NoMemory>
    ensures { IfOk result (λ step. (next : Next)
        → act code.Append next values.old ≡ step_needs step next values.new) }
{
    match (values.pop(), values.pop()) {
        (Some(back), Some(front)) => {
            let mut text = front.into_text(alloc)?;
            text.push_bytes(back.into_text(alloc)?.as_bytes())?;
            push(values, Value::from_text(text))
        }
        _ => wrong_operands(alloc),
    }
}

fn expand(alloc: Global, values: &mut Stack) -> Result<Step, NoMemory>
    ensures { IfOk result (λ step. (next : Next)
        → act code.Expand next values.old ≡ step_needs step next values.new) }
{
    match values.pop() {
        Some(list) => push_items(alloc, &list, values),
        None => wrong_operands(alloc),
    }
}

fn push_items(alloc: Global, list: &Value, values: &mut Stack) -> Result<Step, NoMemory>
    ensures { IfOk result (λ step. (next : Next)
        → expansion_needs list.now (λ items. next 0 (reverse items ++ values.old)) ≡ step_needs step next values.new) }
{
    match list.to_items(alloc)? {
        Ok(items) => {
            values.push_all(values_of(alloc, items.as_slice())?)?;
            Ok(Step::Goes(0))
        }
        Err(fault) => Ok(Step::Halts(Halt::Refused(fault.message(alloc)?))),
    }
}

fn apply_to(alloc: Global, op: Op, count: usize, values: &mut Stack) -> Result<Step, NoMemory>
    ensures { IfOk result (λ step. (next : Next)
        → act (code.Apply op count) next values.old ≡ step_needs step next values.new) }
{
    let operands = values.newest(count);
    if op.is_lazy() || !op.takes(operands.len()) {
        return wrong_operands(alloc);
    }
    if let Some(number) = on_numbers(op, operands) {
        values.forget(count);
        return push(values, Value::from_whole(number));
    }
    let operands = texts_of(alloc, operands)?;
    let outcome = apply(alloc, op, operands.as_slice())?;
    values.forget(count);
    push_value(alloc, outcome, values)
}

// What an operator gives on operands of which numbers are kept, if that is a number.
pub(crate) fn on_numbers(op: Op, operands: &[Value]) -> Option<i64>
    requires { IsTrue (takes op (length operands.now)) }
    ensures { IfSome result (λ number. operator_outcome op operands.now ≡ fine (signed_decimal number)) }
{
    if !op.takes_numbers() {
        return None;
    }
    match operands {
        [a] => on_one(op, a),
        [a, b] => on_two(op, a, b),
        _ => None,
    }
}

fn on_one(op: Op, a: &Value) -> Option<i64>
    requires numbers { IsTrue (takes_numbers op) }
    requires count { IsTrue (takes op 1) }
    ensures { IfSome result (λ number. operator_outcome op (a.now ∷ []) ≡ fine (signed_decimal number)) }
{
    let a = a.number()?;
    match apply_to_numbers(op, &[a]) {
        Ok(number) => Some(number),
        Err(_) => None,
    }
}

fn on_two(op: Op, a: &Value, b: &Value) -> Option<i64>
    requires numbers { IsTrue (takes_numbers op) }
    requires count { IsTrue (takes op 2) }
    ensures { IfSome result (λ number. operator_outcome op (a.now ∷ b.now ∷ []) ≡ fine (signed_decimal number)) }
{
    let a = a.number()?;
    let b = b.number()?;
    match apply_to_numbers(op, &[a, b]) {
        Ok(number) => Some(number),
        Err(_) => None,
    }
}

/// The value of an outcome, unless it has failed.
fn push_value(alloc: Global, outcome: Outcome, values: &mut Stack) -> Result<Step, NoMemory>
    ensures { IfOk result (λ step. (next : Next)
        → unless_failed outcome (λ v. next 0 (v ∷ values.old)) ≡ step_needs step next values.new) }
{
    let Outcome { code, value, .. } = outcome;
    match code {
        Code::Fine => push(values, value),
        _ => Ok(Step::Halts(Halt::Refused(value.into_text(alloc)?))),
    }
}

fn result_of(alloc: Global, values: &mut Stack) -> Result<Step, NoMemory>
    ensures { IfOk result (λ step. (next : Next)
        → act code.Result next values.old ≡ step_needs step next values.new) }
{
    let Some(value) = values.pop() else {
        return wrong_operands(alloc);
    };
    match value.number() {
        Some(_) => push(values, value),
        None => {
            let outcome = result(alloc, value.into_text(alloc)?)?;
            push_value(alloc, outcome, values)
        }
    }
}

fn give(alloc: Global, values: &mut Stack) -> Result<Step, NoMemory>
    ensures { IfOk result (λ step. (next : Next)
        → act code.Give next values.old ≡ step_needs step next values.new) }
{
    match values.pop() {
        Some(value) => Ok(Step::Halts(Halt::Value(value))),
        None => wrong_operands(alloc),
    }
}

fn truth_of(alloc: Global, values: &mut Stack) -> Result<Step, NoMemory>
    ensures { IfOk result (λ step. (next : Next)
        → act code.Truth next values.old ≡ step_needs step next values.new) }
{
    let Some(value) = values.pop() else {
        return wrong_operands(alloc);
    };
    match truth_value(alloc, value)? {
        Ok(truth) => push(values, bit(truth)),
        Err(message) => Ok(Step::Halts(Halt::Refused(message))),
    }
}

fn skip_if_false(alloc: Global, count: usize, values: &mut Stack) -> Result<Step, NoMemory>
    ensures { IfOk result (λ step. (next : Next)
        → act (code.SkipIfFalse count) next values.old ≡ step_needs step next values.new) }
{
    let Some(value) = values.pop() else {
        return wrong_operands(alloc);
    };
    match truth_value(alloc, value)? {
        Ok(true) => Ok(Step::Goes(0)),
        Ok(false) => Ok(Step::Goes(count)),
        Err(message) => Ok(Step::Halts(Halt::Refused(message))),
    }
}

fn skip_if_true(alloc: Global, count: usize, values: &mut Stack) -> Result<Step, NoMemory>
    ensures { IfOk result (λ step. (next : Next)
        → act (code.SkipIfTrue count) next values.old ≡ step_needs step next values.new) }
{
    let Some(value) = values.pop() else {
        return wrong_operands(alloc);
    };
    match truth_value(alloc, value)? {
        Ok(true) => Ok(Step::Goes(count)),
        Ok(false) => Ok(Step::Goes(0)),
        Err(message) => Ok(Step::Halts(Halt::Refused(message))),
    }
}
