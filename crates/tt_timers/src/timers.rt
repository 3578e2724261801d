ghost use Rattle.std.specs.Prelude.{◌≡◌, ◌+◌, ◌<◌, ◌^◌, IfOk, OnErr, OnOk, option_map};
ghost use Rattle.tt_timers.specs.Pending.{after_draw, after_take, first_due, has_timer, is_of, is_script_of};
ghost use Rattle.tt_timers.specs.Pending.{is_sleep_of, is_wait_of, least, no_timers, due_of, with_timer, without};

use crate::pending::Pending;
use crate::spot::{Owner, Spot, Waiting};
use crate::timer::{CONDITION, SCRIPT, SLEEP};
use crate::{Due, TimerKind};
use std::alloc::Global;
use std::marker::Model;
use tt_text::NoMemory;

/// The pending timers of all threads. Contracts see the list of them, by moment and then by number, with the number
/// that the next one draws. Moments are milliseconds of the run.
#[derive(Debug, Drop)]
pub struct Timers {
    pending: Pending,
    next: u64,
}

impl Model for Timers {
    ghost use Rattle.std.specs.Prelude.{map};
    ghost use Rattle.tt_timers.specs.Pending.{TimerTable};
    ghost use Rattle.tt_timers.specs.inside.Entries.{Stands, timer_at};

    ghost Value = { TimerTable };

    ghost view = { λ timers. record { timers = map timer_at timers.pending.timers.entries; next = timers.next } };

    ghost invariant = { λ timers. Stands timers.pending timers.next };
}

impl Timers {
    /// No timer is pending, and the first number is 1. It takes no memory.
    pub fn new(alloc: Global) -> Self
        ensures empty { result ≡ no_timers }
    {
        Timers {
            pending: Pending::new(alloc),
            next: 1,
        }
    }

    /// The number that the next timer draws. It takes no memory.
    pub fn next(&self) -> u64
        ensures next { result ≡ self.now.next }
    {
        self.next
    }

    /// Draws the next number, for a timer that is due at once. The number after it has to be below 2^64. It takes no
    /// memory.
    pub fn draw(&mut self) -> u64
        requires { self.old.next + 1 < 2 ^ 64 }
        ensures number { result ≡ self.old.next }
        ensures drawn { self.new ≡ after_draw self.old }
    {
        let number = self.next;
        self.next = number + 1;
        number
    }

    /// A timer more of this thread, due at this moment, and the number that it draws.
    ///
    /// `NoMemory` if memory for it is refused, or if the number after its own is 2^64; then all is as it was.
    pub fn add(&mut self, thread: u32, moment: u64, kind: TimerKind) -> Result<u64, NoMemory>
        ensures number { IfOk result (λ number. number ≡ self.old.next) }
        ensures added { OnOk result (self.new ≡ with_timer self.old thread moment kind) }
        ensures unchanged { OnErr result (self.new ≡ self.old) }
    {
        let number = self.next;
        let next = number.checked_add(1).ok_or(NoMemory)?;
        self.pending
            .insert(Spot { moment, number }, Waiting { thread, kind })?;
        self.next = next;
        Ok(number)
    }

    /// Drops the thread's script timer of this number; true exactly if it had one (after(n), after cancel). It takes no
    /// memory.
    pub fn drop_script(&mut self, thread: u32, number: u64) -> bool
        ensures found { result ≡ has_timer (is_script_of thread number) self.old }
        ensures dropped { self.new ≡ without (is_script_of thread number) self.old }
    {
        self.pending.remove(Owner {
            thread,
            rank: SCRIPT,
            number,
        })
    }

    /// Drops the timers of the thread's sleep and of its wait for a condition. It takes no memory.
    pub fn drop_wait(&mut self, thread: u32)
        ensures dropped { self.new ≡ without (is_wait_of thread) self.old }
    {
        self.pending.drop_up_to(thread, CONDITION);
    }

    /// Whether the thread sleeps. It takes no memory.
    pub fn sleeping(&self, thread: u32) -> bool
        ensures sleeping { result ≡ has_timer (is_sleep_of thread) self.now }
    {
        self.pending.first_up_to(thread, SLEEP).is_some()
    }

    /// The moment of the timer that is due first; `None` exactly if none is pending. It takes no memory.
    pub fn least(&self) -> Option<u64>
        ensures least { result ≡ least self.now }
    {
        let (spot, _) = self.pending.timers.first_key_value()?;
        Some(spot.moment)
    }

    /// Takes out the first timer, by moment and then by number, if it is due at this moment; `None` exactly if none is.
    /// It takes no memory.
    pub fn take_due(&mut self, moment: u64) -> Option<Due>
        ensures first { result ≡ option_map due_of (first_due moment self.old) }
        ensures taken { self.new ≡ after_take moment self.old }
    {
        if self.least()? > moment {
            return None;
        }
        let (spot, waiting) = self.pending.pop_first()?;
        Some(Due {
            number: spot.number,
            thread: waiting.thread,
            kind: waiting.kind,
        })
    }

    /// The end of a thread: its timers go. It takes no memory.
    pub fn end(&mut self, thread: u32)
        ensures ended { self.new ≡ without (is_of thread) self.old }
    {
        self.pending.drop_up_to(thread, SCRIPT);
    }
}
