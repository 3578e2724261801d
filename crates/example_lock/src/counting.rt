//! Threads that add to one sum, whose total is known.
ghost use Rattle.std.specs.Prelude.{◌≡◌, ◌+◌, ◌*◌, ◌^◌, ◌<◌, ◌≤◌, sum, Some, None, IfOk};
ghost use Rattle.std.specs.List.{All};
ghost use Rattle.tt_noted.specs.Passes.{IsPassOf, IsSamePass, count_of, note_of, turn_of};

use std::alloc::{AllocError, Global};
use std::sync::Wait;
use std::thread;
use std::thread::Threads;
use tt_noted::{Noted, Pass, Tie};

/// A sum, of which each pass notes what it has added.
pub struct Summed;

impl Tie for Summed {
    type State = u64;

    type Note = u32;

    ghost fits = { λ total notes. (total ≡ sum notes) × All (λ note. note < 2 ^ 32) notes };
}

/// Adds one to the sum. That the sum has room for it is what `enter` promises of it: it is that of at most 64 notes.
pub fn add_one<R: Wait>(rt: &R, lock: &Noted<Summed>, pass: &mut Pass<Summed>, noted: u32)
    requires pass { IsPassOf lock.now pass.old × (turn_of pass.old ≡ None) }
    requires few { count_of lock.now ≤ 64 }
    requires noted { (note_of pass.old ≡ Some noted) × (noted + 1 < 2 ^ 32) }
    ensures pass { IsSamePass lock.now pass.old pass.new × (turn_of pass.new ≡ None) }
    ensures noted { note_of pass.new ≡ Some (noted + 1) }
{
    let mut turn = lock.enter(rt, pass);
    turn.state += 1;
    lock.leave(pass, turn, noted + 1);
}

fn add_many<R: Wait>(rt: &R, lock: &Noted<Summed>, pass: &mut Pass<Summed>, rounds: u32)
    requires pass { IsPassOf lock.now pass.old × (turn_of pass.old ≡ None) }
    requires few { count_of lock.now ≤ 64 }
    requires noted { note_of pass.old ≡ Some 0 }
    ensures pass { IsSamePass lock.now pass.old pass.new × (turn_of pass.new ≡ None) }
    ensures noted { note_of pass.new ≡ Some rounds }
{
    for noted in 0..rounds {
        add_one(rt, lock, pass, noted);
    }
}

/// The sum after so many threads, 1 to 64, have each added one so many times.
///
/// `AllocError` if memory for the lock or its passes is refused.
pub fn total_of<R: Threads + Wait + Sync>(
    rt: &R,
    alloc: Global,
    threads: u32,
    rounds: u32,
) -> Result<u64, AllocError>
    requires { (1 ≤ threads) × (threads ≤ 64) }
    ensures total { IfOk result (λ total. total ≡ threads * rounds) }
{
    let Ok((lock, mut passes)) = Noted::<Summed>::new(alloc, 0, threads, &0) else {
        return Err(AllocError);
    };
    let shared = &lock;
    let work = |_: usize, pass: &mut Pass<Summed>|
        requires { IsPassOf shared.now pass.now × (turn_of pass.now ≡ None) × (count_of shared.now ≤ 64)
            × (note_of pass.now ≡ Some 0) }
        ensures { IsSamePass shared.entry.now pass.entry.now pass.exit.now × (turn_of pass.exit.now ≡ None)
            × (note_of pass.exit.now ≡ Some rounds) }
    { add_many(rt, shared, pass, rounds) };
    thread::for_each_mut(rt, passes.as_mut_slice(), threads as usize, &work);
    Ok(lock.close(passes))
}
