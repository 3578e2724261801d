ghost use Rattle.std.specs.Prelude.{◌≡◌, ◌<◌, ◌+◌, ◌++◌, ◌∷◌, [], List, IfOk, OnOk};
ghost use Rattle.tt_before.specs.RaceLists.{AreRacesOf};
ghost use Rattle.tt_before.specs.Steps.{Entry, Stepped, Tick, step};
ghost use Rattle.tt_before.specs.inside.Told.{IsOrderOf};

use crate::Races;
use crate::acquiring::acquires;
use crate::clocks::Clocks;
use crate::finding::races_of;
use crate::kept::{Touch, keep};
use crate::known::Known;
use crate::releasing::releases;
use crate::touching::touched;
use std::alloc::Global;
use tt_calls::{Reply, Request};
use tt_text::NoMemory;

/// Which steps of a run are ordered before which. Contracts see it as the list of the entries that were added to it:
/// `IsOrderOf entries order`.
#[derive(Debug, Drop)]
pub struct Order {
    pub(crate) alloc: Global,
    // How many entries there are.
    pub(crate) count: u64,
    pub(crate) known: Known,
    pub(crate) clocks: Clocks,
    // The steps that touch arrays, in order.
    pub(crate) touches: Vec<Touch>,
}

impl Order {
    /// No entries. It takes no memory.
    pub fn new(alloc: Global) -> Self
        ensures empty { IsOrderOf [] result }
        ensures count { result.count ≡ 0 }
    {
        Order {
            alloc,
            count: 0,
            known: Known::new(alloc),
            clocks: Clocks::new(alloc),
            touches: Vec::new(alloc),
        }
    }

    /// How many entries there are. It takes no memory.
    pub fn len(&self) -> u64
        ensures count { result ≡ self.now.count }
    {
        self.count
    }

    /// A step more: the thread's request, its reply, and how many threads were made by it.
    ///
    /// `NoMemory` if memory is refused; then the order is only fit to be dropped.
    pub fn add(
        &mut self,
        thread: u32,
        request: &Request,
        reply: &Reply,
        made: u32,
    ) -> Result<(), NoMemory>
        requires short { self.old.count < 10000 }
        ensures added { (entries : List Entry) → IsOrderOf entries self.old →
            OnOk result (IsOrderOf (entries ++ Stepped (step thread request.now reply.now made) ∷ []) self.new) }
        ensures count { OnOk result (self.new.count ≡ self.old.count + 1) }
    {
        let takes = acquires(self.alloc, &self.known, thread, request, reply)?;
        let gives = releases(self.alloc, &self.known, thread, request, reply, made)?;
        let told = self
            .clocks
            .step(thread, takes.as_slice(), gives.as_slice())?;
        self.known.follow(thread, request, reply, made)?;
        let touched = touched(self.alloc, request, reply)?;
        keep(&mut self.touches, self.count, thread, told, touched)?;
        self.count += 1;
        Ok(())
    }

    /// A tick more. It takes no memory.
    pub fn add_tick(&mut self)
        requires short { self.old.count < 10000 }
        ensures added { (entries : List Entry) → IsOrderOf entries self.old → IsOrderOf (entries ++ Tick ∷ []) self.new }
        ensures count { self.new.count ≡ self.old.count + 1 }
    {
        self.count += 1;
    }

    /// The races: the first hundred, by their second entry and then by their first, and how many there are.
    ///
    /// `NoMemory` if memory for them is refused.
    pub fn races(&self) -> Result<Races, NoMemory>
        ensures races { (entries : List Entry) → IsOrderOf entries self.now → IfOk result (AreRacesOf entries) }
    {
        let races = races_of(self.alloc, self.touches.as_slice())?;
        Ok(races)
    }
}
