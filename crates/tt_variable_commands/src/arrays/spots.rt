//! The array that a name stands for.
ghost use Rattle.std.specs.Prelude.{◌≡◌, IfOk};
ghost use Rattle.tt_variable_commands.specs.ArrayReading as reading;

use crate::vocabulary::is_element;
use std::alloc::Global;
use tt_store::Store;
use tt_text::{NoMemory, Text, Texts};

/// The indices of its elements, in order; none if it is missing.
pub(crate) fn indices_of(alloc: Global, store: &Store, name: &Text) -> Result<Texts, NoMemory>
    ensures { IfOk result (reading.Lists store.now name.now) }
{
    match indices_if(is_element(name), store, name)? {
        Some(indices) => Ok(indices),
        None => Ok(Texts::new(alloc)),
    }
}

fn indices_if(element: bool, store: &Store, name: &Text) -> Result<Option<Texts>, NoMemory>
    ensures { IfOk result (reading.HasIndicesIf element store.now name.now) }
{
    if element {
        return Ok(None);
    }
    store.indices(name.as_bytes())
}

/// How many elements it has; `None` if it is missing.
pub(crate) fn size_of(store: &Store, name: &Text) -> Result<Option<usize>, NoMemory>
    ensures { IfOk result (reading.Counts store.now name.now) }
{
    size_if(is_element(name), store, name)
}

fn size_if(element: bool, store: &Store, name: &Text) -> Result<Option<usize>, NoMemory>
    ensures { IfOk result (reading.HasSizeIf element store.now name.now) }
{
    if element {
        return Ok(None);
    }
    store.size(name.as_bytes())
}
