//! The lock.
ghost use Rattle.std.specs.Prelude.{◌≡◌, ◌%◌, ◌-◌, ◌<◌, ◌≤◌, [], ◌∷◌, ◌++◌, length, replicate, slice_get, Some, None};
ghost use Rattle.std.specs.Prelude.{IfOk, IfErr, vec_len, vec_capacity};
ghost use Rattle.std.specs.List.{enumerate_from};

use crate::pass::{Pass, Turn};
use crate::table::{Board, ByNote, Leaves, Note, Opening, Place, Take};
use crate::tie::Tie;
use crate::wakes::Wakes;
use atomic_table::{Refused, Table};
use std::alloc::Global;
use std::hint::spin_loop;
use std::marker::Brand;
use std::snapshot::Snapshot;
use std::sync::Wait;
use std::sync::atomic::AtomicU64;
use std::sync::atomic::Ordering::SeqCst;
use std::thread::yield_now;

// Tries to take the lock before the thread begins to yield, and before it begins to sleep.
const SPINS: u32 = 16;

const YIELDS: u32 = 32;

/// A lock round one state, for 1 to 64 passes. Threads share it by reference, and it ends in `close`.
pub struct Noted<T: Tie> {
    table: Board<T>,
    // How many threads wait to enter, asleep or about to sleep.
    waiting: AtomicU64,
    // How many passes rest, or are about to.
    resting: AtomicU64,
    // How often those that rest were woken. They sleep on it.
    wakes: AtomicU64,
    ghost sized: { (table.shared.table_id.words ≡ 1) × (table.shared.table_id.slots ≡ 1) },
    ghost has_pass: { 0 < table.shared.key.count },
}

impl<T: Tie> Noted<T> {
    ghost use Rattle.tt_noted.specs.inside.Rule.{view, holding, leaving, FitsAll, LeavesFit};
    ghost use Rattle.tt_noted.specs.Passes.{count_of, number_of, note_of, turn_of, state_at_entry, IsPassOf};
    ghost use Rattle.tt_noted.specs.Passes.{IsSamePass};
    ghost use Rattle.tt_noted.specs.Passes.{IsFresh, AreFresh, FitsNotes, KeepsFit, AreAllPassesOf, FitsNotesOf};
    ghost use Rattle.tt_noted.specs.Passes.{notes_in};

    // The lock, with the seat that has all notes.
    fn lay(
        alloc: Global,
        state: T::State,
        n: u32,
        note: &T::Note,
    ) -> Result<(Noted<T>, Place<T>), T::State>
        requires { (0 < n) × T.fits state (replicate n note.now) }
        ensures ok { IfOk result (λ r. (count_of r.0 ≡ n) × (r.1.table_id ≡ r.0.table.shared.table_id)
            × (r.1.me ≡ (view n (enumerate_from 0 (replicate n note.now)) None, []))) }
        ensures err { IfErr result (λ s. s ≡ state) }
    {
        let Ok(mut slots) = Vec::with_capacity(alloc, 1) else {
            return Err(state);
        };
        slots.push_reserved(Some(state));
        let opening = Opening {
            count: n,
            note: Snapshot::of(note),
        };
        match Table::new(alloc, &[0], slots, &opening) {
            Ok((table, seat)) => {
                let lock = Noted {
                    table,
                    waiting: AtomicU64::new(0),
                    resting: AtomicU64::new(0),
                    wakes: AtomicU64::new(0),
                };
                Ok((lock, seat))
            }
            Err(Refused { mut slots }) => {
                let state = slots.pop().unwrap().unwrap();
                slots.destroy_empty();
                Err(state)
            }
        }
    }

    // Gives each note a pass of its own.
    fn deal(&self, mut seat: Place<T>, n: u32, note: &T::Note, passes: &mut Vec<Pass<T>>)
        requires seat { (n ≡ count_of self.now) × (seat.table_id ≡ self.now.table.shared.table_id)
            × (seat.me ≡ (view n (enumerate_from 0 (replicate n note.now)) None, [])) }
        requires room { (passes.old.items ≡ []) × (n ≤ vec_capacity passes.old) }
        ensures { AreFresh self.now n note.now passes.new.items }
    {
        for k in 0..n {
            let own = self.table.shared.split_seat::<ByNote>(&mut seat);
            passes.push_reserved(Pass {
                number: k + 1,
                left: 0,
                seat: own,
            });
        }
    }

    /// A lock round the state, and its `n` passes, 1 to 64, in order from number 1, each with this note.
    /// `Err` means that there was no memory, and hands the state back.
    pub fn new(
        alloc: Global,
        state: T::State,
        n: u32,
        note: &T::Note,
    ) -> Result<(Noted<T>, Vec<Pass<T>>), T::State>
        requires count { (1 ≤ n) × (n ≤ 64) }
        requires fits { T.fits state (replicate n note.now) }
        ensures count { IfOk result (λ r. count_of r.0 ≡ n) }
        ensures passes { IfOk result (λ r. AreFresh r.0 n note.now r.1.items) }
        ensures err { IfErr result (λ s. s ≡ state) }
    {
        let Ok(mut passes) = Vec::with_capacity(alloc, n as usize) else {
            return Err(state);
        };
        match Noted::lay(alloc, state, n, note) {
            Ok((lock, seat)) => {
                lock.deal(seat, n, note, &mut passes);
                Ok((lock, passes))
            }
            Err(state) => {
                passes.destroy_empty();
                Err(state)
            }
        }
    }

    // Takes the lock and its slot.
    #[inline]
    fn take<R: Wait>(&self, rt: &R, seat: &mut Place<T>)
        requires of_table { seat.old.table_id ≡ self.now.table.shared.table_id }
        requires has_note { (c : _) × (slice_get seat.old.me.0.notes 0 ≡ Some c) }
        requires no_slot { seat.old.me.1 ≡ [] }
        ensures same { (seat.new.table_id ≡ seat.old.table_id) × (seat.new.id ≡ seat.old.id) }
        ensures took { (state : _) × (seat.new.me ≡ (holding seat.old.me.0 state, (0, Some state) ∷ []))
            × FitsAll T.fits seat.old.me.0 state }
    {
        let shared = &self.table.shared;
        let mut tries = 0;
        for _ in rt.forever() {
            let seen = shared.peek(0);
            if seen % 2 == 0
                && shared.compare_exchange::<Take<T>>(seat, 0, seen, seen + 1) == seen
            {
                return;
            }
            if tries < SPINS {
                spin_loop();
            } else if tries < YIELDS {
                yield_now();
            } else {
                self.sleep(rt);
            }
            tries = tries.saturating_add(1);
        }
        unreachable!()
    }

    // Sleeps while the lock is taken. A leave after the count is raised finds it, so it wakes this thread or
    // another that waits, whose own leave does the same.
    #[cold]
    #[inline(never)]
    fn sleep<R: Wait>(&self, rt: &R) {
        let shared = &self.table.shared;
        self.waiting.fetch_add(1, SeqCst);
        let seen = shared.peek(0);
        if seen % 2 == 1 {
            shared.park(rt, 0, low_half(seen));
        }
        self.waiting.fetch_sub(1, SeqCst);
    }

    /// Takes the lock, and the state out of it, which fits the notes of all passes, this pass's own among them.
    /// It waits while another pass has its turn.
    #[inline]
    pub fn enter<R: Wait>(&self, rt: &R, pass: &mut Pass<T>) -> Turn<T>
        requires own { IsPassOf self.now pass.old }
        requires no_turn { turn_of pass.old ≡ None }
        ensures own { IsSamePass self.now pass.old pass.new × (note_of pass.new ≡ note_of pass.old) }
        ensures turn { (turn_of pass.new ≡ Some result.state) × (state_at_entry result ≡ result.state) }
        ensures fits { FitsNotes T.fits self.now pass.new result.state }
    {
        let seat = &mut pass.seat;
        self.take(rt, seat);
        let state = self.table.shared.exchange(seat, 0, None).unwrap();
        Turn {
            entered: Snapshot::of(&state),
            state,
        }
    }

    // Gives the slot back with the state, and the view its new note. The result is word 0 from then on.
    #[inline]
    fn put_back<K: Leaves<T::Note>>(
        &self,
        seat: &mut Place<T>,
        state: T::State,
        _note: &T::Note,
        wakes: Wakes,
    ) -> u64
        requires of_table { seat.old.table_id ≡ self.now.table.shared.table_id }
        requires held { seat.old.me.1 ≡ (0, None) ∷ [] }
        requires note { K.note ≡ Some _note.now }
        requires fits { LeavesFit T.fits seat.old.me.0 state _note.now }
        ensures same { (seat.new.table_id ≡ seat.old.table_id) × (seat.new.id ≡ seat.old.id) }
        ensures noted { seat.new.me ≡ (leaving seat.old.me.0 _note.now, []) }
    {
        let shared = &self.table.shared;
        let found = shared.exchange(seat, 0, Some(state));
        let None = found else { unreachable!() };
        let more = wakes.adds();
        shared
            .fetch_add::<Note<K>>(seat, 0, more)
            .wrapping_add(more)
    }

    // Puts the state back, and gives the pass its new note and the lock up.
    #[inline]
    fn end_turn(&self, pass: &mut Pass<T>, turn: Turn<T>, note: T::Note, wakes: Wakes)
        requires own { IsPassOf self.now pass.old }
        requires turn { turn_of pass.old ≡ Some (state_at_entry turn) }
        requires fits { KeepsFit T.fits self.now pass.old turn note }
        ensures own { IsSamePass self.now pass.old pass.new }
        ensures note { note_of pass.new ≡ Some note }
        ensures no_turn { turn_of pass.new ≡ None }
    {
        let Turn { state, entered: _ } = turn;
        let Pass {
            number: _,
            left,
            seat,
        } = pass;
        *left = news_in(self.put_back::<Brand>(seat, state, &note, wakes));
        if self.waiting.load(SeqCst) > 0 {
            self.table.shared.wake_one(0);
        }
    }

    /// Puts the state back, gives the pass its new note and the lock up, and wakes all passes that rest.
    /// Whatever the other notes are, the state has to fit with the new note if it fitted with the old one as it was
    /// entered.
    #[inline]
    pub fn leave(&self, pass: &mut Pass<T>, turn: Turn<T>, note: T::Note)
        requires own { IsPassOf self.now pass.old }
        requires turn { turn_of pass.old ≡ Some (state_at_entry turn) }
        requires fits { KeepsFit T.fits self.now pass.old turn note }
        ensures own { IsSamePass self.now pass.old pass.new }
        ensures note { note_of pass.new ≡ Some note }
        ensures no_turn { turn_of pass.new ≡ None }
    {
        self.leave_waking(pass, turn, note, Wakes::All);
    }

    /// Puts the state back, and gives the pass its new note and the lock up, as `leave` does. It wakes as many of the
    /// passes that rest as it is asked to; if that is nobody, it ends no rest either.
    #[inline]
    pub fn leave_waking(&self, pass: &mut Pass<T>, turn: Turn<T>, note: T::Note, wakes: Wakes)
        requires own { IsPassOf self.now pass.old }
        requires turn { turn_of pass.old ≡ Some (state_at_entry turn) }
        requires fits { KeepsFit T.fits self.now pass.old turn note }
        ensures own { IsSamePass self.now pass.old pass.new }
        ensures note { note_of pass.new ≡ Some note }
        ensures no_turn { turn_of pass.new ≡ None }
    {
        self.end_turn(pass, turn, note, wakes);
        if wakes == Wakes::Nobody || self.resting.load(SeqCst) == 0 {
            return;
        }
        self.wakes.fetch_add(1, SeqCst);
        if wakes == Wakes::One {
            self.wakes.wake_one();
        } else {
            self.wakes.wake_all();
        }
    }

    /// Waits for a leave of another pass that wakes. It may end for no reason, and begins no wait if a pass has left so
    /// since this pass's own last leave.
    pub fn rest<R: Wait>(&self, rt: &R, pass: &mut Pass<T>)
        requires own { IsPassOf self.now pass.old }
        requires no_turn { turn_of pass.old ≡ None }
        ensures { pass.new ≡ pass.old }
    {
        self.resting.fetch_add(1, SeqCst);
        let seen = self.wakes.load(SeqCst);
        if news_in(self.table.shared.peek(0)) == pass.left {
            self.wakes.park(rt, low_half(seen));
        }
        self.resting.fetch_sub(1, SeqCst);
    }

    // The seat that has the notes of all passes.
    fn gather(&self, mut passes: Vec<Pass<T>>) -> Place<T>
        requires { AreAllPassesOf self.now passes.items }
        ensures table { result.table_id ≡ self.now.table.shared.table_id }
        ensures view { (result.me.0.turn ≡ None) × (result.me.0.count ≡ count_of self.now) }
        ensures notes { result.me.0.notes ≡ notes_in passes.items }
    {
        let Pass {
            number: _,
            left: _,
            mut seat,
        } = passes.pop().unwrap();
        while let Some(pass) = passes.pop() {
            let Pass {
                number: _,
                left: _,
                seat: own,
            } = pass;
            self.table.shared.join_seat::<ByNote>(&mut seat, own);
        }
        passes.destroy_empty();
        seat
    }

    /// Ends the lock, given all of its passes in any order, and answers the state, which fits their notes.
    pub fn close(self, passes: Vec<Pass<T>>) -> T::State
        requires all { AreAllPassesOf self passes.items }
        ensures fits { FitsNotesOf T.fits self passes.items result }
    {
        let seat = self.gather(passes);
        let Noted {
            table,
            waiting: _,
            resting: _,
            wakes: _,
        } = self;
        let mut closed = table.close_with(seat);
        let state = closed.take(0).unwrap();
        closed.free();
        state
    }
}

// The count of leaves with news, in word 0.
#[inline]
fn news_in(word: u64) -> u32 {
    (word >> 32) as u32
}

// What a sleep compares: the lower 32 bits.
fn low_half(word: u64) -> u32 {
    (word % (1 << 32)) as u32
}
