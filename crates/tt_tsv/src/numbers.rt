//! Numbers in elements.
ghost use Rattle.std.specs.Prelude.{◌≡◌, IfOk};
ghost use Rattle.tt_lists.specs.declared.answer.ListAnswer.TheVariants.{Bad};
ghost use Rattle.tt_number.specs.Messages.{number_message};
ghost use Rattle.tt_number.specs.Numerals.{whole_of};
ghost use Rattle.tt_number.specs.Operators.{binary_of};
ghost use Rattle.tt_number.specs.declared.operators.NumOp.TheVariants.{Add};
ghost use Rattle.tt_tsv.specs.Elements.{increments, increment_of, sum_with_step, sum_answer};
ghost use Rattle.tt_tsv.specs.Elements as table;
ghost use Rattle.tt_tsv.specs.inside.Changed.{value_left};

use crate::change::{Change, not_asked, puts};
use std::alloc::Global;
use tt_lists::ListAnswer;
use tt_number::{NumOp, NumberFault, binary, read_whole, whole_text};
use tt_text::{NoMemory, Text};
use tt_value::Value;

/// The value and the step, which is 1 if no word says it.
pub(crate) fn increment(
    alloc: Global,
    value: &mut Value,
    words: &[Text],
) -> Result<Change, NoMemory>
    ensures change { IfOk result (λ change. change ≡ increments value.old words.now) }
    ensures value { IfOk result (λ change. value.new ≡ value_left change value.old) }
{
    match words {
        [] => increment_by(alloc, value, b"1"),
        [step] => increment_by(alloc, value, step.as_bytes()),
        _ => not_asked(alloc),
    }
}

fn increment_by(alloc: Global, value: &mut Value, step: &[u8]) -> Result<Change, NoMemory>
    ensures change { IfOk result (λ change.
        change ≡ table.puts (increment_of value.old step.now (whole_of value.old))) }
    ensures value { IfOk result (λ change. value.new ≡ value_left change value.old) }
{
    let answer = incremented(alloc, value, step)?;
    puts(value, answer)
}

fn incremented(alloc: Global, value: &mut Value, step: &[u8]) -> Result<ListAnswer, NoMemory>
    ensures answer { IfOk result (λ answer. answer ≡ increment_of value.old step.now (whole_of value.old)) }
    ensures same { value.new ≡ value.old }
{
    match value.whole(alloc)? {
        Ok(number) => stepped(alloc, number, step),
        Err(fault) => {
            let text = value.to_text(alloc)?;
            no_number(alloc, fault, text.as_bytes())
        }
    }
}

fn stepped(alloc: Global, number: i64, step: &[u8]) -> Result<ListAnswer, NoMemory>
    ensures { IfOk result (λ answer. answer ≡ sum_with_step number step.now (whole_of step.now)) }
{
    match read_whole(step) {
        Ok(more) => sum(alloc, number, more),
        Err(fault) => no_number(alloc, fault, step),
    }
}

fn sum(alloc: Global, number: i64, more: i64) -> Result<ListAnswer, NoMemory>
    ensures { IfOk result (λ answer. answer ≡ sum_answer (binary_of Add number more)) }
{
    match binary(NumOp::Add, number, more) {
        Ok(sum) => Ok(ListAnswer::Made(whole_text(alloc, sum)?)),
        Err(fault) => Ok(ListAnswer::Bad(Text::from_bytes(alloc, fault.message())?)),
    }
}

fn no_number(alloc: Global, fault: NumberFault, text: &[u8]) -> Result<ListAnswer, NoMemory>
    ensures { IfOk result (λ answer. answer ≡ Bad (number_message fault text.now)) }
{
    let message = fault.message(alloc, text)?;
    Ok(ListAnswer::Bad(message))
}
