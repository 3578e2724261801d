//! What incr(n) does to a value.
ghost use Rattle.std.specs.Prelude.{◌≡◌, IfOk};
ghost use Rattle.tt_lists.specs.declared.answer.ListAnswer.TheVariants.{Bad};
ghost use Rattle.tt_number.specs.Messages.{number_message};
ghost use Rattle.tt_number.specs.Numerals.{whole_of};
ghost use Rattle.tt_number.specs.Operators.{binary_of};
ghost use Rattle.tt_number.specs.declared.operators.NumOp.TheVariants.{Add};
ghost use Rattle.tt_store.specs.Scalars as scalars;

use std::alloc::Global;
use tt_number::{NumOp, NumberFault, binary, read_whole};
use tt_text::{NoMemory, Text};
use tt_value::{Changing, Made, Value};

/// A whole number is increased by another (incr(n)).
#[derive(Debug, Drop)]
pub(crate) struct Increment {
    pub(crate) step: Text,
}

impl Changing for Increment {
    ghost meaning = { λ increment text. scalars.increment_of increment.step text };

    fn change(&self, alloc: Global, value: &mut Value) -> Result<Made, NoMemory> {
        let made = incremented(alloc, self.step.as_bytes(), value)?;
        match made.into_result() {
            Ok(sum) => {
                *value = sum.copy()?;
                Ok(Made::value(sum))
            }
            Err(message) => Ok(Made::bad(message)),
        }
    }
}

fn incremented(alloc: Global, step: &[u8], value: &mut Value) -> Result<Made, NoMemory>
    ensures made { IfOk result (λ made. made ≡ scalars.increment_by step.now value.old (whole_of value.old)) }
    ensures same { value.new ≡ value.old }
{
    match value.whole(alloc)? {
        Ok(number) => stepped(alloc, number, step),
        Err(fault) => {
            let text = value.to_text(alloc)?;
            no_number(alloc, fault, text.as_bytes())
        }
    }
}

fn stepped(alloc: Global, number: i64, step: &[u8]) -> Result<Made, NoMemory>
    ensures { IfOk result (λ made. made ≡ scalars.sum_with_step number step.now (whole_of step.now)) }
{
    match read_whole(step) {
        Ok(more) => sum(alloc, number, more),
        Err(fault) => no_number(alloc, fault, step),
    }
}

fn sum(alloc: Global, number: i64, more: i64) -> Result<Made, NoMemory>
    ensures { IfOk result (λ made. made ≡ scalars.sum_answer (binary_of Add number more)) }
{
    match binary(NumOp::Add, number, more) {
        Ok(sum) => Ok(Made::value(Value::from_whole(sum))),
        Err(fault) => Ok(Made::bad(Text::from_bytes(alloc, fault.message())?)),
    }
}

fn no_number(alloc: Global, fault: NumberFault, text: &[u8]) -> Result<Made, NoMemory>
    ensures { IfOk result (λ made. made ≡ Bad (number_message fault text.now)) }
{
    let message = fault.message(alloc, text)?;
    Ok(Made::bad(message))
}
