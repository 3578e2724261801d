//! The noted lock beside std's `Mutex`. With the argument `time` it prints how often each was taken in a second.
#![tactic(auto)]

ghost use Rattle.std.specs.Prelude.{◌≡◌, ◌≤◌, None};
ghost use Rattle.tt_noted.specs.Passes.{IsPassOf, IsSamePass, turn_of};

use std::alloc::{AllocError, Global};
use std::io::Print;
use std::marker::PhantomData;
use std::rt::Clock;
use std::sync::atomic::AtomicU64;
use std::sync::atomic::Ordering::SeqCst;
use std::sync::{Mutex, Wait};
use std::thread::Threads;
use std::time::{Duration, Instant};
use std::{env, io, thread};
use tt_noted::{Noted, Pass, Tie, Wakes};

// Enters and leaves of all threads together, with and without the argument `time`.
const TIMED: u64 = 1 << 20;

const UNTIMED: u64 = 1 << 12;

const RUNS: u32 = 5;

/// A state of which nothing is noted.
struct Unnoted<S> {
    state: PhantomData<S>,
}

impl<S: Send> Tie for Unnoted<S> {
    type State = S;

    type Note = ();

    ghost fits = { λ _ _. Unit {0} };
}

/// What the lock guards: it is counted in, and the count is read when the work is over.
trait State: Send {
    fn first() -> Self;

    fn count(&mut self);

    fn counted(&self) -> u64;
}

impl State for u64 {
    fn first() -> Self {
        0
    }

    fn count(&mut self) {
        *self = self.wrapping_add(1);
    }

    fn counted(&self) -> u64 {
        *self
    }
}

/// 2 KiB, which each turn moves out of the lock and back.
#[derive(Drop)]
struct Large {
    words: [u64; 256],
}

impl State for Large {
    fn first() -> Self {
        Large { words: [0; 256] }
    }

    fn count(&mut self) {
        self.words[0] = self.words[0].wrapping_add(1);
    }

    fn counted(&self) -> u64 {
        self.words[0]
    }
}

fn enter_and_leave<R: Wait, S: State>(
    rt: &R,
    lock: &Noted<Unnoted<S>>,
    pass: &mut Pass<Unnoted<S>>,
    rounds: u64,
)
    requires { IsPassOf lock.now pass.old × (turn_of pass.old ≡ None) }
    ensures { IsSamePass lock.now pass.old pass.new × (turn_of pass.new ≡ None) }
{
    for _ in 0..rounds {
        let mut turn = lock.enter(rt, pass);
        turn.state.count();
        lock.leave(pass, turn, ());
    }
}

fn count_under_mutex<R: Wait>(rt: &R, lock: &Mutex<u64>, rounds: u64) {
    for _ in 0..rounds {
        let mut count = lock.lock(rt);
        *count = count.wrapping_add(1);
    }
}

fn by_noted<R: Threads + Wait + Sync, S: State + Drop>(
    rt: &R,
    alloc: Global,
    threads: u32,
    rounds: u64,
) -> Result<u64, AllocError>
    requires { (1 ≤ threads) × (threads ≤ 64) }
{
    let Ok((lock, mut passes)) = Noted::<Unnoted<S>>::new(alloc, S::first(), threads, &()) else {
        return Err(AllocError);
    };
    let shared = &lock;
    let work = |_: usize, pass: &mut Pass<Unnoted<S>>|
        requires { IsPassOf shared.now pass.now × (turn_of pass.now ≡ None) }
        ensures { IsSamePass shared.entry.now pass.entry.now pass.exit.now × (turn_of pass.exit.now ≡ None) }
    { enter_and_leave(rt, shared, pass, rounds) };
    thread::for_each_mut(rt, passes.as_mut_slice(), threads as usize, &work);
    Ok(lock.close(passes).counted())
}

fn by_mutex<R: Threads + Wait + Sync>(
    rt: &R,
    alloc: Global,
    threads: u32,
    rounds: u64,
) -> Result<u64, AllocError>
    requires { 1 ≤ threads }
{
    let lock = Mutex::new(0);
    let mut places = Vec::from_elem(alloc, 0u8, threads as usize)?;
    thread::for_each_mut(
        rt,
        places.as_mut_slice(),
        threads as usize,
        &|_, _| { count_under_mutex(rt, &lock, rounds) },
    );
    Ok(lock.into_inner())
}

// Looks until the count has reached the rounds, and rests between two looks.
fn rest_until<R: Wait>(
    rt: &R,
    lock: &Noted<Unnoted<u64>>,
    pass: &mut Pass<Unnoted<u64>>,
    rounds: u64,
)
    requires { IsPassOf lock.now pass.old × (turn_of pass.old ≡ None) }
    ensures { IsSamePass lock.now pass.old pass.new × (turn_of pass.new ≡ None) }
{
    for _ in rt.forever() {
        let turn = lock.enter(rt, pass);
        let count = turn.state;
        lock.leave_waking(pass, turn, (), Wakes::Nobody);
        if count >= rounds {
            return;
        }
        lock.rest(rt, pass);
    }
}

// Counts the rounds, leaving quietly but for the last, and answers how many microseconds they took.
fn count_quietly<R: Wait + Clock>(
    rt: &R,
    lock: &Noted<Unnoted<u64>>,
    pass: &mut Pass<Unnoted<u64>>,
    rounds: u64,
) -> u64
    requires { IsPassOf lock.now pass.old × (turn_of pass.old ≡ None) }
    ensures { IsSamePass lock.now pass.old pass.new × (turn_of pass.new ≡ None) }
{
    thread::sleep(rt, Duration::from_millis(20));
    let start = Instant::now(rt);
    for _ in 1..rounds {
        let mut turn = lock.enter(rt, pass);
        turn.state = turn.state.wrapping_add(1);
        lock.leave_waking(pass, turn, (), Wakes::Nobody);
    }
    let end = Instant::now(rt);
    enter_and_leave(rt, lock, pass, 1);
    match (start, end) {
        (Ok(start), Ok(end)) => u64::try_from(end.duration_since(start).as_micros()).unwrap_or(
            u64::MAX,
        ),
        _ => 0,
    }
}

// The count, and how long it took the first pass to count while the others rested.
fn with_resting<R: Threads + Wait + Clock + Sync>(
    rt: &R,
    alloc: Global,
    passes: u32,
    rounds: u64,
) -> Result<(u64, u64), AllocError>
    requires { (1 ≤ passes) × (passes ≤ 64) }
{
    let Ok((lock, mut all)) = Noted::<Unnoted<u64>>::new(alloc, 0, passes, &()) else {
        return Err(AllocError);
    };
    let took = AtomicU64::new(0);
    let (shared, micros) = (&lock, &took);
    let work = |place: usize, pass: &mut Pass<Unnoted<u64>>|
        requires { IsPassOf shared.now pass.now × (turn_of pass.now ≡ None) }
        ensures { IsSamePass shared.entry.now pass.entry.now pass.exit.now × (turn_of pass.exit.now ≡ None) }
    {
        if place == 0 {
            micros.store(count_quietly(rt, shared, pass, rounds), SeqCst);
        } else {
            rest_until(rt, shared, pass, rounds);
        }
    };
    thread::for_each_mut(rt, all.as_mut_slice(), passes as usize, &work);
    Ok((lock.close(all), took.load(SeqCst)))
}

// How many in a second, if so many took so many microseconds.
fn per_second(count: u64, micros: u128) -> u128 {
    u128::from(count) * 1_000_000 / micros.max(1)
}

// The best rates of the lock and of the mutex over a few runs.
fn best_rates<R: Threads + Wait + Clock + Sync>(
    rt: &R,
    alloc: Global,
    threads: u32,
) -> io::Result<(u128, u128)>
    requires { (1 ≤ threads) × (threads ≤ 64) }
{
    let rounds = TIMED / u64::from(threads);
    let mut best = (0, 0);
    for _ in 0..RUNS {
        let start = Instant::now(rt)?;
        let noted = by_noted::<R, u64>(rt, alloc, threads, rounds)?;
        let middle = Instant::now(rt)?;
        let mutex = by_mutex(rt, alloc, threads, rounds)?;
        let end = Instant::now(rt)?;
        let noted = per_second(noted, middle.duration_since(start).as_micros());
        let mutex = per_second(mutex, end.duration_since(middle).as_micros());
        best = (best.0.max(noted), best.1.max(mutex));
    }
    Ok(best)
}

fn best_large<R: Threads + Wait + Clock + Sync>(rt: &R, alloc: Global) -> io::Result<u128> {
    let mut best = 0;
    for _ in 0..RUNS {
        let start = Instant::now(rt)?;
        let counted = by_noted::<R, Large>(rt, alloc, 1, TIMED)?;
        let end = Instant::now(rt)?;
        best = best.max(per_second(counted, end.duration_since(start).as_micros()));
    }
    Ok(best)
}

fn best_resting<R: Threads + Wait + Clock + Sync>(
    rt: &R,
    alloc: Global,
    passes: u32,
) -> io::Result<u128>
    requires { (1 ≤ passes) × (passes ≤ 64) }
{
    let mut best = 0;
    for _ in 0..RUNS {
        let (count, micros) = with_resting(rt, alloc, passes, TIMED)?;
        best = best.max(per_second(count, u128::from(micros)));
    }
    Ok(best)
}

fn print_rates<R: Threads + Wait + Clock + Print + Sync>(rt: &R, alloc: Global) -> io::Result<()> {
    for threads in [1, 2, 4, 64] {
        let (noted, mutex) = best_rates(rt, alloc, threads)?;
        println!(rt; "{threads} threads: Noted {noted} a second, Mutex {mutex} a second")?;
    }
    let large = best_large(rt, alloc)?;
    println!(rt; "1 thread, a state of 2 KiB: Noted {large} a second")?;
    let alone = best_resting(rt, alloc, 1)?;
    let beside = best_resting(rt, alloc, 64)?;
    println!(rt; "1 thread, leaving quietly: {alone} a second, with 63 at rest {beside} a second")?;
    Ok(())
}

fn print_counts<R: Threads + Wait + Clock + Print + Sync>(rt: &R, alloc: Global) -> io::Result<()> {
    for threads in [1, 2, 4, 64] {
        let rounds = UNTIMED / u64::from(threads);
        let noted = by_noted::<R, u64>(rt, alloc, threads, rounds)?;
        let mutex = by_mutex(rt, alloc, threads, rounds)?;
        println!(rt; "{threads} threads: Noted counts {noted}, Mutex counts {mutex}")?;
    }
    let large = by_noted::<R, Large>(rt, alloc, 4, UNTIMED / 4)?;
    let (beside, _) = with_resting(rt, alloc, 64, UNTIMED)?;
    println!(rt; "a state of 2 KiB: Noted counts {large}; with 63 at rest: Noted counts {beside}")?;
    Ok(())
}

fn main(rt: HostRuntime) -> io::Result<()> {
    let timed = env::args(&rt)?.any(|word| word.as_str() == "time");
    if timed {
        print_rates(&rt, rt.alloc())
    } else {
        print_counts(&rt, rt.alloc())
    }
}
