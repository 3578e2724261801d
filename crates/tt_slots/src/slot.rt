ghost use Rattle.std.specs.Prelude.{◌≡◌};
ghost use Rattle.tt_slots.specs.Waiting.{is_waiting};

use tt_calls::Outcome;

/// What a slot has.
#[derive(Debug, Drop)]
pub enum SlotState {
    /// No answer yet.
    Waiting,
    /// What the script came to.
    Result(Outcome),
    /// The thread that was to answer has ended.
    Died,
}

/// A slot: by which thread it waits, for an answer of which thread, and what it has.
#[derive(Debug, Drop)]
pub struct Slot {
    pub sender: u32,
    pub target: u32,
    pub state: SlotState,
}

impl Slot {
    /// Whether there is no answer yet.
    pub fn is_waiting(&self) -> bool
        ensures { result ≡ is_waiting self.now.state }
    {
        matches!(self.state, SlotState::Waiting)
    }
}
