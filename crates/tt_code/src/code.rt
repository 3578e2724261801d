ghost use Rattle.std.specs.Prelude.{◌≡◌, IfOk};
ghost use Rattle.tt_code.specs.declared.code.Instruction.TheVariants as code;

use std::alloc::Global;
use tt_exprs::Op;
use tt_text::{NoMemory, Text};
use tt_value::Value;

/// What is done with the values so far.
#[derive(Debug, Drop)]
pub(crate) enum Instruction {
    /// Adds this value.
    Push(Value),
    /// Adds the value of the variable of this name.
    Variable(Text),
    /// Replaces the newest, an index, by the value of the element of the array of this name.
    Element(Text),
    /// Adds the result of this script.
    Script(Text),
    /// Joins the two newest.
    Append,
    /// Replaces the newest, a list, by its items.
    Expand,
    /// Replaces so many of the newest by what the operator gives on them.
    Apply(Op, usize),
    /// Replaces the newest by its truth, as 1 or 0.
    Truth,
    /// Passes over so many instructions.
    Skip(usize),
    /// Takes the newest; passes over so many instructions if it is false.
    SkipIfFalse(usize),
    /// Takes the newest; passes over so many instructions if it is true.
    SkipIfTrue(usize),
    /// Replaces the newest, the value of a whole expression, by its result.
    Result,
    /// Gives the newest, to which all has come.
    Give,
    /// Refuses an operator with another number of operands than it has.
    WrongOperands,
}

/// The code of a command's words or of an expression. A contract says what it needs.
#[derive(Debug, Drop)]
pub struct Code {
    pub(crate) instructions: Vec<Instruction>,
}

impl Instruction {
    /// The one that adds this text, as the number whose decimal text it is if it is one.
    ///
    /// `NoMemory` if memory is refused.
    pub(crate) fn literal(alloc: Global, text: Text) -> Result<Self, NoMemory>
        ensures literal { IfOk result (λ instruction. instruction ≡ code.Push text) }
    {
        let mut value = Value::from_text(text);
        let _ = value.whole(alloc)?;
        Ok(Instruction::Push(value))
    }
}
