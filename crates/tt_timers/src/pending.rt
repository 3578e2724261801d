ghost use Rattle.std.specs.Prelude.{◌≡◌, ◌+◌, ◌<◌, ◌≤◌, ◌^◌, true, false, [], ◌∷◌, length, is_some};
ghost use Rattle.std.specs.Prelude.{IfNone, IfSome, IsSome, OnErr, OnOk};
ghost use Rattle.std.specs.List.{All};
ghost use Rattle.std.specs.Map.{keys_of};
ghost use Rattle.tt_timers.specs.inside.Entries.{Agree, is_up_to, moment_of, with_entry, without_owned, without_up_to};

use crate::spot::{Owner, Spot, Waiting, owner_of};
use std::alloc::Global;
use std::collections::BTreeMap;
use tt_text::NoMemory;

// The pending timers by moment and number, and beside them the moment of each by its thread, so that the timers of a
// thread are found without a walk over all.
#[derive(Debug, Drop)]
pub(crate) struct Pending {
    pub(crate) timers: BTreeMap<Spot, Waiting>,
    pub(crate) moments: BTreeMap<Owner, u64>,
}

impl Pending {
    pub(crate) fn new(alloc: Global) -> Self
        ensures empty { result.timers.entries ≡ [] }
        ensures agree { Agree result.timers.entries result.moments.entries }
    {
        Pending {
            timers: BTreeMap::new(alloc),
            moments: BTreeMap::new(alloc),
        }
    }

    // One timer more, whose number is above all others.
    pub(crate) fn insert(&mut self, spot: Spot, waiting: Waiting) -> Result<(), NoMemory>
        requires agree { Agree self.old.timers.entries self.old.moments.entries }
        requires fresh { All (λ one. one.number < spot.number) (keys_of self.old.timers.entries) }
        ensures agree { Agree self.new.timers.entries self.new.moments.entries }
        ensures put { OnOk result (self.new.timers.entries ≡ with_entry self.old.timers.entries spot waiting) }
        ensures unchanged { OnErr result (self.new.timers.entries ≡ self.old.timers.entries) }
    {
        let owner = owner_of(spot, &waiting);
        self.moments.insert(owner, spot.moment)?;
        if self.timers.insert(spot, waiting).is_err() {
            self.moments.remove(&owner);
            return Err(NoMemory);
        }
        Ok(())
    }

    // Takes the timer of this owner out, and answers whether there is one.
    pub(crate) fn remove(&mut self, owner: Owner) -> bool
        requires agree { Agree self.old.timers.entries self.old.moments.entries }
        ensures agree { Agree self.new.timers.entries self.new.moments.entries }
        ensures found { result ≡ is_some (moment_of self.old.moments.entries owner) }
        ensures removed { self.new.timers.entries ≡ without_owned owner self.old.timers.entries }
        ensures fewer { result ≡ true → length self.new.moments.entries < length self.old.moments.entries }
    {
        let Some(moment) = self.moments.remove(&owner) else {
            return false;
        };
        let spot = Spot {
            moment,
            number: owner.number,
        };
        self.timers.remove(&spot);
        true
    }

    // Takes the first timer out.
    pub(crate) fn pop_first(&mut self) -> Option<(Spot, Waiting)>
        requires agree { Agree self.old.timers.entries self.old.moments.entries }
        ensures agree { Agree self.new.timers.entries self.new.moments.entries }
        ensures first { IfSome result (λ first. self.old.timers.entries ≡ first ∷ self.new.timers.entries) }
        ensures none { IfNone result (self.new.timers.entries ≡ self.old.timers.entries) }
        ensures empty { IfNone result (self.old.timers.entries ≡ []) }
    {
        let (spot, waiting) = self.timers.pop_first()?;
        self.moments.remove(&owner_of(spot, &waiting));
        Some((spot, waiting))
    }

    // A timer of this thread whose rank is at most this one; none exactly if there is none.
    pub(crate) fn first_up_to(&self, thread: u32, most: u8) -> Option<Owner>
        requires agree { Agree self.now.timers.entries self.now.moments.entries }
        requires small { most + 1 < 2 ^ 8 }
        ensures kept { IfSome result (λ owner. IsSome (moment_of self.now.moments.entries owner)) }
        ensures thread { IfSome result (λ owner. owner.thread ≡ thread) }
        ensures rank { IfSome result (λ owner. owner.rank ≤ most) }
        ensures none { IfNone result (All (λ entry. is_up_to thread most entry ≡ false) self.now.timers.entries) }
    {
        let low = Owner {
            thread,
            rank: 0,
            number: 0,
        };
        let high = Owner {
            thread,
            rank: most + 1,
            number: 0,
        };
        let (owner, _) = self.moments.range(low..high).next()?;
        Some(*owner)
    }

    // Takes out the timers of this thread whose rank is at most this one.
    pub(crate) fn drop_up_to(&mut self, thread: u32, most: u8)
        requires agree { Agree self.old.timers.entries self.old.moments.entries }
        requires small { most + 1 < 2 ^ 8 }
        ensures agree { Agree self.new.timers.entries self.new.moments.entries }
        ensures dropped { self.new.timers.entries ≡ without_up_to thread most self.old.timers.entries }
    {
        while let Some(owner) = self.first_up_to(thread, most) {
            self.remove(owner);
        }
    }
}
