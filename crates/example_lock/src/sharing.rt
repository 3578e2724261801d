//! A lock over any type, shared by threads in generic code.
ghost use Rattle.std.specs.Prelude.{◌≡◌, ◌≤◌, None};
ghost use Rattle.tt_noted.specs.Passes.{IsPassOf, IsSamePass, turn_of};

use std::alloc::Global;
use std::marker::PhantomData;
use std::rt::Clock;
use std::sync::Wait;
use std::thread;
use std::thread::Threads;
use tt_noted::{Noted, Pass, Tie};

/// A value of which nothing is noted.
pub struct Unnoted<T> {
    value: PhantomData<T>,
}

impl<T: Send> Tie for Unnoted<T> {
    type State = T;

    type Note = ();

    ghost fits = { λ _ _. Unit {0} };
}

/// What the thread of each pass does, by the pass's place among all.
pub trait Work<T: Send> {
    fn run<R: Wait + Clock>(
        &self,
        rt: &R,
        lock: &Noted<Unnoted<T>>,
        pass: &mut Pass<Unnoted<T>>,
        place: usize,
    )
        requires { IsPassOf lock.now pass.old × (turn_of pass.old ≡ None) }
        ensures { IsSamePass lock.now pass.old pass.new × (turn_of pass.new ≡ None) };
}

/// The value after so many threads, 1 to 64, have each done the work.
///
/// The value is handed back as `Err` if memory for the lock or its passes is refused.
pub fn value_after<R: Threads + Wait + Clock + Sync, T: Send, W: Work<T> + Sync>(
    rt: &R,
    alloc: Global,
    value: T,
    threads: u32,
    work: &W,
) -> Result<T, T>
    requires { (1 ≤ threads) × (threads ≤ 64) }
{
    let (lock, mut passes) = Noted::<Unnoted<T>>::new(alloc, value, threads, &())?;
    let shared = &lock;
    let each = |place: usize, pass: &mut Pass<Unnoted<T>>|
        requires { IsPassOf shared.now pass.now × (turn_of pass.now ≡ None) }
        ensures { IsSamePass shared.entry.now pass.entry.now pass.exit.now × (turn_of pass.exit.now ≡ None) }
    { work.run(rt, shared, pass, place) };
    thread::for_each_mut(rt, passes.as_mut_slice(), threads as usize, &each);
    Ok(lock.close(passes))
}
