ghost use Rattle.std.specs.Prelude.{◌≡◌, OnOk};
ghost use Rattle.tt_threads.specs.Requests.{life_at, without_reference};
ghost use Rattle.tt_threads.specs.Rows.{is_linked, lives, new_row};

use tt_calls::Start;
use tt_ids::count_with;
use tt_text::NoMemory;

/// What became of a thread.
#[derive(Clone, Copy, Debug, PartialEq, Eq)]
pub enum Life {
    /// It runs, and its id names it.
    Live,
    /// It was released, and is to stop; its id names nothing any more.
    Marked,
    /// It has ended, with this exit code.
    Ended(i64),
}

impl Life {
    /// Whether its id names it.
    pub fn is_linked(self) -> bool
        ensures { result ≡ is_linked self }
    {
        matches!(self, Life::Live)
    }

    // What it is if so many holds remain.
    fn held(self, count: i64) -> Self
        ensures life { result ≡ life_at count self }
        ensures lives { lives result ≡ lives self }
    {
        match self {
            Life::Live if count <= 0 => Life::Marked,
            other => other,
        }
    }

    /// Whether it has not ended.
    pub fn lives(self) -> bool
        ensures { result ≡ lives self }
    {
        !matches!(self, Life::Ended(_))
    }
}

/// A thread.
#[derive(Debug, Drop)]
pub struct Row {
    /// What it begins with.
    pub start: Start,
    pub life: Life,
    /// Whether it can be joined (thread(n), thread::create -joinable).
    pub joinable: bool,
    /// Whether it was joined, which it can be once.
    pub joined: bool,
    /// How many holds it has less those that were given up (thread(n), thread::preserve, thread::release).
    pub count: i64,
    /// How many scripts may wait in its queue before a sender has to wait; 0 for any number (thread(n),
    /// thread::configure -eventmark).
    pub eventmark: u64,
    /// Whether an error in a script that it was sent stops it (thread(n), thread::configure -unwindonerror).
    pub unwind: bool,
}

impl Row {
    /// A new thread, held once if it is preserved.
    pub(crate) fn new(start: Start, joinable: bool, preserved: bool) -> Self
        ensures { result ≡ new_row start joinable preserved }
    {
        Row {
            start,
            life: Life::Live,
            joinable,
            joined: false,
            count: i64::from(preserved),
            eventmark: 0,
            unwind: false,
        }
    }

    // One hold less.
    pub(crate) fn release(&mut self) -> Result<(), NoMemory>
        ensures released { OnOk result (self.new ≡ without_reference self.old) }
        ensures lives { lives self.new.life ≡ lives self.old.life }
    {
        self.count = count_with(self.count, -1)?;
        self.life = self.life.held(self.count);
        Ok(())
    }
}
