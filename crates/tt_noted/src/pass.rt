//! Passes, by which threads enter the lock, and the turns that they have.
ghost use Rattle.std.specs.Prelude.{◌≡◌, ◌-◌, ◌<◌, ◌≤◌, [], ◌∷◌, map};
ghost use Rattle.tt_noted.specs.inside.Rule.{held_slots};

use crate::table::Place;
use crate::tie::Tie;
use std::snapshot::Snapshot;

/// The right to enter one lock, with a number and a note. It may go to another thread, and ends in `Noted::close`.
pub struct Pass<T: Tie> {
    pub(crate) number: u32,
    /// The count of leaves with news at this pass's last leave.
    pub(crate) left: u32,
    pub(crate) seat: Place<T>,
    ghost numbered: { (0 < number) × (map (λ c. c.0) seat.me.0.notes ≡ (number - 1) ∷ []) },
    ghost counted: { number ≤ seat.me.0.count },
    ghost held: { seat.me.1 ≡ held_slots seat.me.0.turn },
}

/// The state, out of the lock, and for contracts alone the state as it was entered. It ends in `Noted::leave`.
pub struct Turn<T: Tie> {
    /// The state, which may change until the leave, while no other pass can enter.
    pub state: T::State,
    pub(crate) entered: Snapshot<T::State>,
}

impl<T: Tie> Pass<T> {
    ghost use Rattle.tt_noted.specs.Passes.{number_of};

    /// The pass's number, from 1 to the number of passes of its lock.
    pub fn number(&self) -> u32
        ensures { result ≡ number_of self.now }
    {
        self.number
    }
}
