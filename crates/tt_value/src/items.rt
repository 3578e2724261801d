ghost use Rattle.std.specs.Prelude.{◌≡◌, IfOk};
ghost use Rattle.std.specs.Arc.{arc_value};

use crate::listing::Listing;
use std::marker::Model;
use std::sync::Arc;
use tt_text::{NoMemory, Text};

/// The items of a list (Tcl(n)), shared with the value that they were read from. Contracts see the list of them.
#[derive(Debug, Drop)]
pub struct Items {
    list: Arc<Listing>,
}

impl Model for Items {
    ghost use Rattle.std.specs.Prelude.{ℕ, List};
    ghost use Rattle.std.specs.Arc.{arc_value};

    ghost Value = { List (List ℕ) };

    ghost view = { λ items. (arc_value items.list).items };
}

impl Items {
    pub(crate) fn of(list: Arc<Listing>) -> Self
        ensures items { result ≡ (arc_value list).items }
    {
        Items { list }
    }

    /// The items, from the first to the last.
    pub fn as_slice(&self) -> &[Text]
        ensures items { result.now ≡ self.now }
    {
        self.list.items()
    }

    /// The items as a vector. They are copied only if a value or other `Items` share them.
    ///
    /// `NoMemory` if the memory for copies is refused.
    pub fn into_vec(self) -> Result<Vec<Text>, NoMemory>
        ensures items { IfOk result (λ items. items.items ≡ self) }
    {
        match Arc::try_unwrap(self.list) {
            Ok(list) => Ok(list.into_items()),
            Err(list) => list.copied_items(),
        }
    }
}
