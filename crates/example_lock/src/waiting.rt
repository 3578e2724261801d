//! Work that waits: to enter, at rest, and for its turn.
ghost use Rattle.std.specs.Prelude.{◌≡◌, None};
ghost use Rattle.tt_noted.specs.Passes.{IsPassOf, IsSamePass, turn_of};

use crate::sharing::{Unnoted, Work};
use std::rt::Clock;
use std::sync::Wait;
use std::sync::atomic::AtomicU64;
use std::sync::atomic::Ordering::SeqCst;
use std::thread;
use std::time::Duration;
use tt_noted::{Noted, Pass, Wakes};

type Count = Unnoted<u64>;

// Adds to the count, and leaves with news.
fn add<R: Wait>(rt: &R, lock: &Noted<Count>, pass: &mut Pass<Count>, more: u64)
    requires { IsPassOf lock.now pass.old × (turn_of pass.old ≡ None) }
    ensures { IsSamePass lock.now pass.old pass.new × (turn_of pass.new ≡ None) }
{
    let mut turn = lock.enter(rt, pass);
    turn.state = turn.state.wrapping_add(more);
    lock.leave(pass, turn, ());
}

// Adds to the count, leaves quietly, and answers the count.
fn add_quietly<R: Wait>(rt: &R, lock: &Noted<Count>, pass: &mut Pass<Count>, more: u64) -> u64
    requires { IsPassOf lock.now pass.old × (turn_of pass.old ≡ None) }
    ensures { IsSamePass lock.now pass.old pass.new × (turn_of pass.new ≡ None) }
{
    let mut turn = lock.enter(rt, pass);
    let count = turn.state.wrapping_add(more);
    turn.state = count;
    lock.leave_waking(pass, turn, (), Wakes::Nobody);
    count
}

/// The first pass is busy outside of the lock and then counts; the others rest until it has.
#[derive(Drop)]
pub struct RestWhileBusy {
    /// How often the others looked at the count.
    pub looks: AtomicU64,
}

impl Work<u64> for RestWhileBusy {
    fn run<R: Wait + Clock>(
        &self,
        rt: &R,
        lock: &Noted<Count>,
        pass: &mut Pass<Count>,
        place: usize,
    )
        requires { IsPassOf lock.now pass.old × (turn_of pass.old ≡ None) }
        ensures { IsSamePass lock.now pass.old pass.new × (turn_of pass.new ≡ None) }
    {
        if place == 0 {
            thread::sleep(rt, Duration::from_millis(50));
            add(rt, lock, pass, 1);
            return;
        }
        for _ in rt.forever() {
            self.looks.fetch_add(1, SeqCst);
            if add_quietly(rt, lock, pass, 0) > 0 {
                return;
            }
            lock.rest(rt, pass);
        }
    }
}

/// Two passes count up to 2,000 by turns, and each rests until it is its turn.
pub struct TakeTurns;

impl Work<u64> for TakeTurns {
    fn run<R: Wait + Clock>(
        &self,
        rt: &R,
        lock: &Noted<Count>,
        pass: &mut Pass<Count>,
        place: usize,
    )
        requires { IsPassOf lock.now pass.old × (turn_of pass.old ≡ None) }
        ensures { IsSamePass lock.now pass.old pass.new × (turn_of pass.new ≡ None) }
    {
        for _ in rt.forever() {
            let count = add_quietly(rt, lock, pass, 0);
            if count >= 2_000 {
                return;
            }
            if count % 2 == place as u64 {
                add(rt, lock, pass, 1);
            } else {
                lock.rest(rt, pass);
            }
        }
    }
}

/// The first pass holds its turn for a while, and the others enter meanwhile. Each adds one.
#[derive(Drop)]
pub struct EnterWhileHeld {
    /// Above 0 once the first has its turn.
    pub held: AtomicU64,
}

impl Work<u64> for EnterWhileHeld {
    fn run<R: Wait + Clock>(
        &self,
        rt: &R,
        lock: &Noted<Count>,
        pass: &mut Pass<Count>,
        place: usize,
    )
        requires { IsPassOf lock.now pass.old × (turn_of pass.old ≡ None) }
        ensures { IsSamePass lock.now pass.old pass.new × (turn_of pass.new ≡ None) }
    {
        if place == 0 {
            let mut turn = lock.enter(rt, pass);
            self.held.store(1, SeqCst);
            thread::sleep(rt, Duration::from_millis(1_000));
            turn.state = turn.state.wrapping_add(1);
            lock.leave(pass, turn, ());
            return;
        }
        for _ in rt.forever() {
            if self.held.load(SeqCst) > 0 {
                break;
            }
            thread::sleep(rt, Duration::from_millis(5));
        }
        add(rt, lock, pass, 1);
    }
}

/// Passes add one 10,000 times each, leave with news or quietly, and rest, all at random. The first never rests and
/// adds nothing, and leaves with news until the others have ended.
#[derive(Drop)]
pub struct AtRandom {
    /// How many of the others have ended.
    pub ended: AtomicU64,
    /// How many others there are.
    pub others: u64,
}

impl AtRandom {
    fn leave_until_all_ended<R: Wait>(&self, rt: &R, lock: &Noted<Count>, pass: &mut Pass<Count>)
        requires { IsPassOf lock.now pass.old × (turn_of pass.old ≡ None) }
        ensures { IsSamePass lock.now pass.old pass.new × (turn_of pass.new ≡ None) }
    {
        for _ in rt.forever() {
            if self.ended.load(SeqCst) >= self.others {
                return;
            }
            add(rt, lock, pass, 0);
        }
    }

    fn leave_and_rest<R: Wait>(
        &self,
        rt: &R,
        lock: &Noted<Count>,
        pass: &mut Pass<Count>,
        seed: u64,
    )
        requires { IsPassOf lock.now pass.old × (turn_of pass.old ≡ None) }
        ensures { IsSamePass lock.now pass.old pass.new × (turn_of pass.new ≡ None) }
    {
        let mut random = seed;
        for _ in 0..10_000 {
            random = random
                .wrapping_mul(6_364_136_223_846_793_005)
                .wrapping_add(1);
            let choice = random >> 60;
            if choice % 2 == 0 {
                add_quietly(rt, lock, pass, 1);
            } else {
                add(rt, lock, pass, 1);
            }
            if choice >= 14 {
                lock.rest(rt, pass);
            }
        }
        self.ended.fetch_add(1, SeqCst);
    }
}

impl Work<u64> for AtRandom {
    fn run<R: Wait + Clock>(
        &self,
        rt: &R,
        lock: &Noted<Count>,
        pass: &mut Pass<Count>,
        place: usize,
    )
        requires { IsPassOf lock.now pass.old × (turn_of pass.old ≡ None) }
        ensures { IsSamePass lock.now pass.old pass.new × (turn_of pass.new ≡ None) }
    {
        if place == 0 {
            self.leave_until_all_ended(rt, lock, pass);
        } else {
            self.leave_and_rest(rt, lock, pass, place as u64);
        }
    }
}
