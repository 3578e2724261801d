//! Instructions that are made from the last to the first.
ghost use Rattle.std.specs.Prelude.{◌≡◌, ◌∷◌, [], length, OnOk};

use crate::code::Instruction;
use std::alloc::Global;
use std::marker::Model;
use tt_text::NoMemory;

/// Instructions in the making. Contracts see them from the first to the last, of which the last was made first.
#[derive(Drop)]
pub(crate) struct Builder {
    reversed: Vec<Instruction>,
}

impl Model for Builder {
    ghost use Rattle.std.specs.Prelude.{List, reverse};
    ghost use Rattle.tt_code.specs.declared.code.Instruction.{Instruction};

    ghost Value = { List Instruction };

    ghost view = { λ builder. reverse builder.reversed.items };
}

impl Builder {
    pub(crate) fn new(alloc: Global) -> Self
        ensures { result ≡ [] }
    {
        Builder {
            reversed: Vec::new(alloc),
        }
    }

    /// Adds an instruction in front.
    pub(crate) fn push(&mut self, instruction: Instruction) -> Result<(), NoMemory>
        ensures { OnOk result (self.new ≡ instruction ∷ self.old) }
    {
        self.reversed.push(instruction)?;
        Ok(())
    }

    pub(crate) fn len(&self) -> usize
        ensures { result ≡ length self.now }
    {
        self.reversed.len()
    }

    /// The instructions from the first to the last.
    pub(crate) fn finish(self) -> Vec<Instruction>
        ensures { result.items ≡ self }
    {
        let Builder { mut reversed } = self;
        reversed.reverse();
        reversed
    }
}
