//! Arrays and their elements (array(n)).
ghost use Rattle.std.specs.Prelude.{◌≡◌, IfOk, None};
ghost use Rattle.std.specs.Option.{option_copied};
ghost use Rattle.tt_store.specs.Held as held;
ghost use Rattle.tt_store.specs.Spots.{spot};

use crate::Store;
use crate::spot::spot_named;
use tt_text::{NoMemory, Text, Texts};
use tt_vars::VarFault;

impl Store {
    /// The value of what `$name` and `$name(index)` name, or why there is none.
    ///
    /// `NoMemory` if memory is refused.
    pub fn look_up(
        &self,
        name: &[u8],
        index: Option<&[u8]>,
    ) -> Result<Result<Text, VarFault>, NoMemory>
        ensures found { IfOk result (held.Finds self.now (spot name.now (option_copied index.entry))) }
    {
        let spot = spot_named(self.alloc, name, index)?;
        match self.find(&spot)? {
            Ok(value) => Ok(Ok(value.into_text(self.alloc)?)),
            Err(fault) => Ok(Err(fault)),
        }
    }

    /// Removes what `$name` and `$name(index)` name (unset(n)), or says why not; then nothing has changed.
    ///
    /// `NoMemory` if memory is refused.
    pub fn remove(
        &mut self,
        name: &[u8],
        index: Option<&[u8]>,
    ) -> Result<Result<(), VarFault>, NoMemory>
        ensures removed { IfOk result (λ removed.
            held.Drops self.old (spot name.now (option_copied index.entry)) self.new removed) }
    {
        let spot = spot_named(self.alloc, name, index)?;
        let removed = self.nesting.unset(&spot)?;
        Ok(removed)
    }

    /// The indices of the array that `$name` names, in order; `None` if it names none.
    ///
    /// `NoMemory` if memory is refused.
    pub fn indices(&self, name: &[u8]) -> Result<Option<Texts>, NoMemory>
        ensures indices { IfOk result (held.HasIndices self.now name.now) }
    {
        let spot = spot_named(self.alloc, name, None)?;
        let indices = self.nesting.indices(&spot)?;
        Ok(indices)
    }

    /// How many elements the array has that `$name` names; `None` if it names none.
    ///
    /// `NoMemory` if memory is refused.
    pub fn size(&self, name: &[u8]) -> Result<Option<usize>, NoMemory>
        ensures size { IfOk result (held.HasSize self.now name.now) }
    {
        let spot = spot_named(self.alloc, name, None)?;
        Ok(self.nesting.size(&spot))
    }
}
