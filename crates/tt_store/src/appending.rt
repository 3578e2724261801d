//! What append(n) and lappend(n) do to a value with one word, which take no memory for a list of it.
ghost use Rattle.tt_value.specs.Growing.{text_with_texts, list_with_texts};

use std::alloc::Global;
use tt_text::{NoMemory, Text};
use tt_value::{Changing, Made, Value};

/// One text goes to the end of the value.
#[derive(Debug, Drop)]
pub(crate) struct AppendingOne {
    pub(crate) texts: [Text; 1],
}

impl Changing for AppendingOne {
    ghost meaning = { λ appending text. text_with_texts appending.texts text };

    fn change(&self, alloc: Global, value: &mut Value) -> Result<Made, NoMemory> {
        value.append(alloc, &self.texts)?;
        Ok(Made::value(value.copy()?))
    }
}

/// One item goes to the end of the list that the value is.
#[derive(Debug, Drop)]
pub(crate) struct LengtheningByOne {
    pub(crate) items: [Text; 1],
}

impl Changing for LengtheningByOne {
    ghost meaning = { λ lengthening text. list_with_texts lengthening.items text };

    fn change(&self, alloc: Global, value: &mut Value) -> Result<Made, NoMemory> {
        match value.push(alloc, &self.items)? {
            Ok(()) => Ok(Made::value(value.copy()?)),
            Err(fault) => Ok(Made::bad(fault.message(alloc)?)),
        }
    }
}
