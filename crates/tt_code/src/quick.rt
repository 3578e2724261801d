//! What the most frequent instructions do on numbers that are kept. It holds no value that is larger than a word, so that
//! it is short.
ghost use Rattle.std.specs.Prelude.{◌≡◌, IfNone, IfOk, IfSome};
ghost use Rattle.tt_code.specs.Code.{Next, act};
ghost use Rattle.tt_code.specs.declared.code.Instruction.TheVariants as code;

use crate::code::Instruction;
use crate::stack::Stack;
use crate::steps::on_numbers;
use tt_exprs::Op;
use tt_text::NoMemory;
use tt_value::Value;

/// One instruction, if it goes on in a frequent way: after so many instructions more.
pub(crate) fn perform_quickly(
    instruction: &Instruction,
    values: &mut Stack,
) -> Result<Option<usize>, NoMemory>
    ensures some { IfOk result (λ gone. IfSome gone (λ count. (next : Next)
        → act instruction.now next values.old ≡ next count values.new)) }
    ensures none { IfOk result (λ gone. IfNone gone (values.new ≡ values.old)) }
{
    match instruction {
        Instruction::Push(value) => {
            values.push(value.copy()?)?;
            Ok(Some(0))
        }
        Instruction::Apply(op, count) => apply_to_numbers(*op, *count, values),
        Instruction::Result => match values.newest_number() {
            Some(_) => Ok(Some(0)),
            None => Ok(None),
        },
        Instruction::Truth => match values.newest_number() {
            Some(number) if number == 0 || number == 1 => Ok(Some(0)),
            _ => Ok(None),
        },
        Instruction::Skip(count) => Ok(Some(*count)),
        _ => Ok(None),
    }
}

fn apply_to_numbers(op: Op, count: usize, values: &mut Stack) -> Result<Option<usize>, NoMemory>
    ensures some { IfOk result (λ gone. IfSome gone (λ more. (next : Next)
        → act (code.Apply op count) next values.old ≡ next more values.new)) }
    ensures none { IfOk result (λ gone. IfNone gone (values.new ≡ values.old)) }
{
    let operands = values.newest(count);
    if op.is_lazy() || !op.takes(operands.len()) {
        return Ok(None);
    }
    let Some(number) = on_numbers(op, operands) else {
        return Ok(None);
    };
    values.forget(count);
    values.push(Value::from_whole(number))?;
    Ok(Some(0))
}
