//! The code of words.
ghost use Rattle.std.specs.Prelude.{◌≡◌, OnOk};
ghost use Rattle.tt_script.specs.Plain.{plain_part, plain_parts, plain_words};
ghost use Rattle.tt_code.specs.Making as making;

use crate::builder::Builder;
use crate::code::Instruction;
use std::alloc::Global;
use tt_script::{Part, Word};
use tt_text::NoMemory;
use tt_value::Value;

#[cycle(part)]
fn push_part(alloc: Global, part: &Part, code: &mut Builder) -> Result<(), NoMemory>
    ensures { OnOk result (code.new ≡ making.part_code (plain_part part.now) code.old) }
{
    match part {
        Part::Letters(text) => code.push(Instruction::literal(alloc, text.copy()?)?),
        Part::Variable(name) => code.push(Instruction::Variable(name.copy()?)),
        Part::Element(name, index) => {
            code.push(Instruction::Element(name.copy()?))?;
            push_parts(alloc, index, code)
        }
        Part::Script(text) => code.push(Instruction::Script(text.copy()?)),
    }
}

/// Parts that are joined.
#[cycle(part)]
pub(crate) fn push_parts(alloc: Global, parts: &[Part], code: &mut Builder) -> Result<(), NoMemory>
    ensures { OnOk result (code.new ≡ making.parts_code (plain_parts parts.now) code.old) }
{
    let mut left = parts.len();
    if left == 0 {
        return code.push(Instruction::Push(Value::new(alloc)));
    }
    while left > 1 {
        left -= 1;
        code.push(Instruction::Append)?;
        push_part(alloc, &parts[left], code)?;
    }
    push_part(alloc, &parts[0], code)
}

/// The words of a command.
pub(crate) fn push_words(alloc: Global, words: &[Word], code: &mut Builder) -> Result<(), NoMemory>
    ensures { OnOk result (code.new ≡ making.words_code (plain_words words.now) code.old) }
{
    let mut left = words.len();
    while left > 0 {
        left -= 1;
        let word = &words[left];
        if word.expand {
            code.push(Instruction::Expand)?;
        }
        push_parts(alloc, &word.parts, code)?;
    }
    Ok(())
}
