ghost use Rattle.std.specs.Prelude.{◌≡◌};
ghost use Rattle.tt_timers.specs.inside.Entries.{owner_of};

use crate::TimerKind;

// Where a timer stands among the pending ones: by moment, and those of one moment by number.
#[derive(Clone, Copy, Debug, PartialEq, Eq, PartialOrd, Ord)]
pub(crate) struct Spot {
    pub(crate) moment: u64,
    pub(crate) number: u64,
}

// Whose a timer is: that of a thread, by the rank of its kind and then by number.
#[derive(Clone, Copy, Debug, PartialEq, Eq, PartialOrd, Ord)]
pub(crate) struct Owner {
    pub(crate) thread: u32,
    pub(crate) rank: u8,
    pub(crate) number: u64,
}

// What a pending timer is for.
#[derive(Debug, Drop)]
pub(crate) struct Waiting {
    pub(crate) thread: u32,
    pub(crate) kind: TimerKind,
}

// Whose the timer at this spot is.
pub(crate) fn owner_of(spot: Spot, waiting: &Waiting) -> Owner
    ensures { result ≡ owner_of (spot, waiting.now) }
{
    Owner {
        thread: waiting.thread,
        rank: waiting.kind.rank(),
        number: spot.number,
    }
}
