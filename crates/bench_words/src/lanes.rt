//! The lane kernels beside loops that go a byte at a time.

use crate::plain;
use std::alloc::Global;
use std::rt::Clock;
use std::time::Instant;

const SIZE: usize = 1 << 20;

const ROUNDS: usize = 64;

pub(crate) fn run_all(
    rt: &(impl Clock + Print),
    alloc: Global,
    is_timed: bool,
) -> anyhow::Result<()> {
    let letters = vec![in alloc; b'a'; SIZE]?;
    let blanks = vec![in alloc; b' '; SIZE]?;
    compare(
        rt,
        "next_special",
        &letters,
        is_timed,
        |b| tt_lanes::next_special(b, 0),
        plain::next_special,
    )?;
    compare(
        rt,
        "blank_run",
        &blanks,
        is_timed,
        |b| tt_lanes::blank_run(b, 0),
        plain::blank_run,
    )?;
    compare(
        rt,
        "count_newlines",
        &letters,
        is_timed,
        |b| tt_lanes::count_newlines(b),
        plain::count_newlines,
    )?;
    compare(
        rt,
        "count_chars",
        &letters,
        is_timed,
        |b| tt_lanes::count_chars(b),
        plain::count_chars,
    )
}

fn compare<K: Fn(&[u8]) -> usize, P: Fn(&[u8]) -> usize>(
    rt: &(impl Clock + Print),
    name: &str,
    bytes: &[u8],
    is_timed: bool,
    kernel: K,
    plain: P,
) -> anyhow::Result<()>
    requires kernel { K.IsAlwaysCallable kernel }
    requires plain { P.IsAlwaysCallable plain }
{
    let answers = if kernel(bytes) == plain(bytes) {
        "the same"
    } else {
        "DIFFERENT"
    };
    if !is_timed {
        println!(rt; "{name}: {answers}")?;
        return Ok(());
    }
    let fast = picoseconds(rt, bytes, kernel)?;
    let slow = picoseconds(rt, bytes, plain)?;
    println!(rt; "{name}: {answers}, {fast} ps a byte, the plain loop {slow} ps")?;
    Ok(())
}

// How long a call takes for a byte. Each round begins a byte later, so that no call is left out.
fn picoseconds<F: Fn(&[u8]) -> usize>(rt: &impl Clock, bytes: &[u8], f: F) -> anyhow::Result<u128>
    requires { F.IsAlwaysCallable f }
{
    let start = Instant::now(rt)?;
    let mut answers = 0;
    for round in 0..ROUNDS.min(bytes.len()) {
        answers |= f(&bytes[round..]);
    }
    let time = start.elapsed(rt)?;
    anyhow::ensure!(answers < 2 * SIZE, "an answer past the end");
    Ok(time.as_nanos() * 1000 / (ROUNDS * SIZE) as u128)
}
