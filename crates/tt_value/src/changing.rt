//! Ways to change a value where it stands.
ghost use Rattle.std.specs.Prelude.{◌≡◌, IfOk};
ghost use Rattle.tt_value.specs.Growing.{text_with_texts, list_with_texts, value_after};

use crate::{Made, Value};
use std::alloc::Global;
use tt_text::{NoMemory, Texts};

/// A way to change a value where it stands.
pub trait Changing {
    ghost use Rattle.std.specs.Prelude.{ℕ, List};
    ghost use Rattle.tt_lists.specs.declared.answer.ListAnswer.{ListAnswer};

    ghost meaning: { Self → List ℕ → ListAnswer };

    /// Changes a value, and answers what it is then; or answers why not, and then its text is as it was.
    ///
    /// `NoMemory` if memory is refused; then nothing is said of the value.
    fn change(&self, alloc: Global, value: &mut Value) -> Result<Made, NoMemory>
        ensures made { IfOk result (λ made. made ≡ meaning self.now value.old) }
        ensures left { IfOk result (λ made. value.new ≡ value_after made value.old) };
}

/// Texts go to the end of the value (append(n)).
#[derive(Debug, Drop)]
pub struct Appending {
    pub texts: Texts,
}

impl Changing for Appending {
    ghost meaning = { λ appending text. text_with_texts appending.texts text };

    fn change(&self, alloc: Global, value: &mut Value) -> Result<Made, NoMemory> {
        value.append(alloc, self.texts.as_slice())?;
        Ok(Made::value(value.copy()?))
    }
}

/// Items go to the end of the list that the value is (lappend(n)).
#[derive(Debug, Drop)]
pub struct Lengthening {
    pub items: Texts,
}

impl Changing for Lengthening {
    ghost meaning = { λ lengthening text. list_with_texts lengthening.items text };

    fn change(&self, alloc: Global, value: &mut Value) -> Result<Made, NoMemory> {
        match value.push(alloc, self.items.as_slice())? {
            Ok(()) => Ok(Made::value(value.copy()?)),
            Err(fault) => Ok(Made::bad(fault.message(alloc)?)),
        }
    }
}
