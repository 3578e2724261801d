ghost use Rattle.std.specs.Prelude.{◌≡◌};
ghost use Rattle.tt_timers.specs.inside.Entries.{rank};

use tt_text::Text;

/// What a timer is for.
#[derive(Debug, Drop)]
pub enum TimerKind {
    /// A script that its thread evaluates (after(n), after ms script).
    Script(Text),
    /// The sleep of its thread (after(n), after ms).
    Sleep,
    /// The wait of its thread for a condition, as long as it lasts at most (thread(n), thread::cond wait).
    Condition,
}

// The ranks of the kinds among the timers of a thread.
pub(crate) const SLEEP: u8 = 0;

pub(crate) const CONDITION: u8 = 1;

pub(crate) const SCRIPT: u8 = 2;

impl TimerKind {
    // Where it stands among the timers of its thread.
    pub(crate) fn rank(&self) -> u8
        ensures { result ≡ rank self.now }
    {
        match self {
            TimerKind::Sleep => SLEEP,
            TimerKind::Condition => CONDITION,
            TimerKind::Script(_) => SCRIPT,
        }
    }
}

/// A timer that rings: its number, the thread to which it belongs, and what it was for.
#[derive(Debug, Drop)]
pub struct Due {
    pub number: u64,
    pub thread: u32,
    pub kind: TimerKind,
}
