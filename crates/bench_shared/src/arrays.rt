//! Increments of one key of a shared array of 10, 1,000 and 100,000 keys, and whether a thread waits for it.
//! Times are in nanoseconds.

use std::alloc::Global;
use std::rt::Clock;
use std::time::Instant;
use tt_calls::{Reply, Step, TsvCall};
use tt_number::whole_text;
use tt_text::{Text, Texts};
use tt_tsv::Arrays;

const SIZES: [u32; 3] = [10, 1_000, 100_000];

// How many increments are timed together, and how many times; the least is reported.
const TIMES: u32 = 100_000;

const ROUNDS: u32 = 10;

pub(crate) fn run_all(
    rt: &(impl Clock + Print),
    alloc: Global,
    is_timed: bool,
) -> anyhow::Result<()> {
    if !is_timed {
        return tell(rt, alloc);
    }
    for size in SIZES {
        run(rt, alloc, size)?;
    }
    Ok(())
}

fn tell(rt: &impl Print, alloc: Global) -> anyhow::Result<()> {
    let mut arrays = array_of(alloc, 10)?;
    let call = increment(alloc)?;
    increments(&mut arrays, &call, 1_000)?;
    let step = ask(&mut arrays, &call)?;
    match &step {
        Step::Reply(Reply::Value(text)) => println!(rt; "{} bytes", text.len())?,
        _ => println!(rt; "no number")?,
    }
    Ok(())
}

fn run(rt: &(impl Clock + Print), alloc: Global, size: u32) -> anyhow::Result<()> {
    let mut arrays = array_of(alloc, size)?;
    let call = increment(alloc)?;
    let mut least = u128::MAX;
    let mut least_wait = u128::MAX;
    for _ in 0..ROUNDS {
        let start = Instant::now(rt)?;
        increments(&mut arrays, &call, TIMES)?;
        least = least.min(start.elapsed(rt)?.as_nanos());
        let start = Instant::now(rt)?;
        anyhow::ensure!(waits(&arrays, &call, TIMES) == 0, "a thread waits");
        least_wait = least_wait.min(start.elapsed(rt)?.as_nanos());
    }
    let (one, wait) = (least / u128::from(TIMES), least_wait / u128::from(TIMES));
    println!(rt; "{size} keys: an increment {one} ns, a test of waiting {wait} ns")?;
    Ok(())
}

fn increments(arrays: &mut Arrays, call: &TsvCall, times: u32) -> anyhow::Result<()> {
    for _ in 0..times {
        ask(arrays, call)?;
    }
    Ok(())
}

// How many of so many tests say that a thread waits.
fn waits(arrays: &Arrays, call: &TsvCall, times: u32) -> u32 {
    let mut waiting = 0_u32;
    for _ in 0..times {
        waiting = waiting.saturating_add(u32::from(arrays.waits(2, call)));
    }
    waiting
}

fn ask(arrays: &mut Arrays, call: &TsvCall) -> anyhow::Result<Step> {
    let step = arrays.apply(1, call)?;
    Ok(step)
}

fn words_of(alloc: Global, words: &[&str]) -> anyhow::Result<Texts> {
    let mut texts = Texts::new(alloc);
    for word in words {
        texts.push(Text::from_bytes(alloc, word.as_bytes())?)?;
    }
    Ok(texts)
}

fn increment(alloc: Global) -> anyhow::Result<TsvCall> {
    let words = words_of(alloc, &["tsv::incr", "a", "5"])?;
    Ok(TsvCall::Run { words })
}

// One array with so many keys.
fn array_of(alloc: Global, size: u32) -> anyhow::Result<Arrays> {
    let mut arrays = Arrays::new(alloc);
    for number in 0..size {
        let mut words = words_of(alloc, &["tsv::set", "a"])?;
        words.push(whole_text(alloc, i64::from(number))?)?;
        words.push(Text::from_bytes(alloc, b"0")?)?;
        ask(&mut arrays, &TsvCall::Run { words })?;
    }
    Ok(arrays)
}
