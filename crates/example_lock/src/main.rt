//! What callers of the lock of `tt_noted` can prove, and how its waits go, of which no clause speaks. It prints what
//! came of each.
#![tactic(auto)]

ghost use Rattle.std.specs.Prelude.{◌≤◌};

mod counting;
mod sharing;
mod waiting;

use counting::total_of;
use sharing::{Work, value_after};
use std::alloc::{AllocError, Global};
use std::io;
use std::io::Print;
use std::rt::Clock;
use std::sync::Wait;
use std::sync::atomic::AtomicU64;
use std::sync::atomic::Ordering::SeqCst;
use std::thread::Threads;
use std::time::CpuClock;
use waiting::{AtRandom, EnterWhileHeld, RestWhileBusy, TakeTurns};

fn main(rt: HostRuntime) -> io::Result<()> {
    for threads in [1, 2, 4, 64] {
        let total = total_of(&rt, rt.alloc(), threads, 10_000)?;
        println!(rt; "{threads} threads add one 10000 times each: {total}")?;
    }
    print_resting(&rt, rt.alloc())?;
    print_turns(&rt, rt.alloc())?;
    print_entering(&rt, rt.alloc())?;
    print_random(&rt, rt.alloc())
}

// The count of 0 after so many threads have each done the work.
fn count_after<R: Threads + Wait + Clock + Sync, W: Work<u64> + Sync>(
    rt: &R,
    alloc: Global,
    threads: u32,
    work: &W,
) -> Result<u64, AllocError>
    requires { (1 ≤ threads) × (threads ≤ 64) }
{
    value_after(rt, alloc, 0, threads, work).map_err(|_| AllocError)
}

// If `rest` didn't wait, or quiet leaves ended it, there would be thousands of looks.
fn print_resting<R: Threads + Wait + Clock + Print + Sync>(
    rt: &R,
    alloc: Global,
) -> io::Result<()> {
    let work = RestWhileBusy {
        looks: AtomicU64::new(0),
    };
    let count = count_after(rt, alloc, 4, &work)?;
    let few = work.looks.load(SeqCst) < 100;
    println!(rt; "three rest while one is busy: {count}, fewer than 100 looks: {few}")?;
    Ok(())
}

fn print_turns<R: Threads + Wait + Clock + Print + Sync>(rt: &R, alloc: Global) -> io::Result<()> {
    let count = count_after(rt, alloc, 2, &TakeTurns)?;
    println!(rt; "two take turns: {count}")?;
    Ok(())
}

// Threads that yield all the while would take a second of each processor.
fn print_entering<R: Threads + Wait + Clock + CpuClock + Print + Sync>(
    rt: &R,
    alloc: Global,
) -> io::Result<()> {
    let work = EnterWhileHeld {
        held: AtomicU64::new(0),
    };
    let start = rt.process_cpu_time()?;
    let count = count_after(rt, alloc, 64, &work)?;
    let used = rt.process_cpu_time()?.saturating_sub(start);
    let little = used.as_millis() < 500;
    println!(rt;
        "63 enter while one has its turn: {count}, less than 500 ms of processor time: {little}"
    )?;
    Ok(())
}

fn print_random<R: Threads + Wait + Clock + Print + Sync>(rt: &R, alloc: Global) -> io::Result<()> {
    let work = AtRandom {
        ended: AtomicU64::new(0),
        others: 63,
    };
    let count = count_after(rt, alloc, 64, &work)?;
    println!(rt; "63 leave and rest at random: {count}")?;
    Ok(())
}
