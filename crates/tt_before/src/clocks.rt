//! The clocks of objects.
ghost use Rattle.std.specs.Prelude.{◌≡◌, ◌∷◌, [], ℕ, IfOk, OnOk, slice_index};
ghost use Rattle.tt_before.specs.inside.Clocks.{AreJoined, IsJoin, IsJoinOf, IsTold};
ghost use Rattle.tt_before.specs.inside.Kept.{clock_of, row_in};

use crate::Object;
use crate::rows::{count_step, join};
use std::alloc::Global;
use std::collections::HashMap;
use tt_text::NoMemory;

/// The row of each object that was released.
#[derive(Debug, Drop)]
pub(crate) struct Clocks {
    pub(crate) alloc: Global,
    pub(crate) rows: HashMap<Object, Vec<u16>>,
}

impl Clocks {
    /// No object was released. It takes no memory.
    pub(crate) fn new(alloc: Global) -> Self
        ensures none { (object : Object) (thread : ℕ) → clock_of result object thread ≡ 0 }
    {
        Clocks {
            alloc,
            rows: HashMap::new(alloc),
        }
    }

    /// What the clocks of these objects have.
    ///
    /// `NoMemory` if memory for it is refused.
    pub(crate) fn take(&self, takes: &[Object]) -> Result<Vec<u16>, NoMemory>
        ensures { IfOk result (λ row. IsJoinOf (slice_index row.items) (clock_of self.now) takes.now) }
    {
        let mut row = Vec::new(self.alloc);
        for object in takes {
            self.join_into(&mut row, object)?;
        }
        Ok(row)
    }

    fn join_into(&self, row: &mut Vec<u16>, object: &Object) -> Result<(), NoMemory>
        ensures { OnOk result
            (IsJoin (slice_index row.new.items) (slice_index row.old.items) (clock_of self.now object.now)) }
    {
        match self.rows.get(object) {
            Some(known) => join(row, known.as_slice()),
            None => Ok(()),
        }
    }

    /// Puts a row into the clocks of these objects.
    ///
    /// `NoMemory` if memory for it is refused.
    pub(crate) fn give(&mut self, gives: &[Object], row: &[u16]) -> Result<(), NoMemory>
        ensures { OnOk result (AreJoined (clock_of self.new) (clock_of self.old) gives.now (slice_index row.now)) }
    {
        for object in gives {
            self.give_one(object.copy()?, row)?;
        }
        Ok(())
    }

    fn give_one(&mut self, object: Object, row: &[u16]) -> Result<(), NoMemory>
        ensures { OnOk result (AreJoined (clock_of self.new) (clock_of self.old) (object ∷ []) (slice_index row.now)) }
    {
        let mut known = row_or_none(self.alloc, self.rows.remove(&object));
        join(&mut known, row)?;
        self.rows.insert(object, known)?;
        Ok(())
    }
}

/// A row, or an empty one.
fn row_or_none(alloc: Global, known: Option<Vec<u16>>) -> Vec<u16>
    ensures { (thread : ℕ) → slice_index result.items thread ≡ row_in known thread }
{
    match known {
        Some(row) => row,
        None => Vec::new(alloc),
    }
}

/// What the clocks tell of a step: which of its thread's steps it is, and what is before it.
#[derive(Debug, Drop)]
pub(crate) struct Told {
    pub(crate) rank: u16,
    pub(crate) row: Vec<u16>,
}

impl Clocks {
    /// A step of a thread, which acquires some objects and then releases others.
    ///
    /// `NoMemory` if memory for it is refused.
    pub(crate) fn step(
        &mut self,
        thread: u32,
        takes: &[Object],
        gives: &[Object],
    ) -> Result<Told, NoMemory>
        ensures { IfOk result (λ told. IsTold
            (clock_of self.old) (clock_of self.new) thread takes.now gives.now told.rank (slice_index told.row.items)) }
    {
        let mut row = self.take(takes)?;
        let rank = count_step(&mut row, thread)?;
        self.give(gives, row.as_slice())?;
        Ok(Told { rank, row })
    }
}
