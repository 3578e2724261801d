ghost use Rattle.std.specs.Prelude.{◌≡◌, ◌<◌, false, None, Some, OnOk, OnErr, IsSome, option_copied, option_map};
ghost use Rattle.tt_slots.specs.Waiting.{after_end, after_take, slot_after_end, is_waiting, no_slots, slot_of};
ghost use Rattle.tt_slots.specs.Waiting.{state_of};
ghost use Rattle.tt_slots.specs.Waiting.{with_slot, with_state, without_slot};
ghost use Rattle.tt_slots.specs.declared.slot.SlotState.TheVariants.{Died, Result, Waiting};

use crate::{Slot, SlotState};
use std::alloc::Global;
use std::collections::BTreeMap;
use std::marker::Model;
use tt_calls::Outcome;
use tt_text::NoMemory;

/// The open slots of posts, each of which is answered once. Contracts see the list of them with the greatest number
/// that was opened so far.
#[derive(Debug, Drop)]
pub struct Slots {
    slots: BTreeMap<u64, Slot>,
    greatest: u64,
}

impl Model for Slots {
    ghost use Rattle.tt_slots.specs.Waiting.{OpenSlots};

    ghost Value = { OpenSlots };

    ghost view = { λ slots. record { open_slots = slots.slots.entries; greatest = slots.greatest } };
}

impl Slots {
    /// No open slot. It takes no memory.
    pub fn new(alloc: Global) -> Self
        ensures empty { result ≡ no_slots }
    {
        Slots {
            slots: BTreeMap::new(alloc),
            greatest: 0,
        }
    }

    /// Opens slot `n`, by which the thread `sender` waits for an answer of the thread `target`.
    ///
    /// `NoMemory` if memory for it is refused; then the slots are as they were.
    pub fn add(&mut self, n: u64, sender: u32, target: u32) -> Result<(), NoMemory>
        requires { self.old.greatest < n }
        ensures opened { OnOk result (self.new ≡ with_slot self.old n sender target) }
        ensures unchanged { OnErr result (self.new ≡ self.old) }
    {
        let slot = Slot {
            sender,
            target,
            state: SlotState::Waiting,
        };
        self.slots.insert(n, slot)?;
        self.greatest = n;
        Ok(())
    }

    /// Puts the answer into slot `n`, which waits. It takes no memory.
    pub fn fill(&mut self, n: u64, outcome: Outcome)
        requires { state_of self.old n ≡ Some Waiting }
        ensures filled { self.new ≡ with_state self.old n (Result outcome) }
    {
        if let Some(slot) = self.slots.get_mut(&n) {
            slot.state = SlotState::Result(outcome);
        }
    }

    /// The end of the thread `target`: each slot that waits for its answer has died. It takes no memory.
    pub fn die_all(&mut self, target: u32)
        ensures died { self.new ≡ after_end self.old target }
    {
        self.slots.retain(|_, slot| {
            die(slot, target);
            true
        });
    }

    /// Answers what slot `n`, which is open, has, and closes it if it doesn't wait. It takes no memory.
    pub fn take(&mut self, n: u64) -> SlotState
        requires { IsSome (state_of self.old n) }
        ensures state { state_of self.old n ≡ Some result }
        ensures slots { self.new ≡ after_take self.old n result }
        ensures once { is_waiting result ≡ false → state_of self.new n ≡ None }
    {
        if self.waits(n) == Some(true) {
            return SlotState::Waiting;
        }
        let slot = self.slots.remove(&n).unwrap();
        slot.state
    }

    /// Closes slot `n` without an answer, since nobody waits by it any more. If it isn't open, nothing changes. It takes
    /// no memory.
    pub fn abandon(&mut self, n: u64)
        ensures closed { self.new ≡ without_slot self.old n }
        ensures unchanged { state_of self.old n ≡ None → self.new ≡ self.old }
        ensures gone { state_of self.new n ≡ None }
    {
        self.slots.remove(&n);
    }

    /// Slot `n`; None exactly if it isn't open. It takes no memory.
    pub fn slot(&self, n: u64) -> Option<&Slot>
        ensures slot { option_copied result ≡ slot_of self.now n }
    {
        self.slots.get(&n)
    }

    /// Whether slot `n` waits; None exactly if it isn't open. It takes no memory.
    pub fn waits(&self, n: u64) -> Option<bool>
        ensures waits { result ≡ option_map is_waiting (state_of self.now n) }
    {
        let slot = self.slots.get(&n)?;
        Some(slot.is_waiting())
    }
}

fn die(slot: &mut Slot, target: u32)
    ensures { slot.new ≡ slot_after_end target slot.old }
{
    if slot.target == target && slot.is_waiting() {
        slot.state = SlotState::Died;
    }
}
