//! Lists of 64 KiB, 256 KiB and 1 MiB split and joined, and expressions of these sizes read: how long each takes for a
//! byte.

use std::alloc::Global;
use std::rt::Clock;
use std::time::{Duration, Instant};
use tt_exprs::{Parsed, parse};
use tt_lists::{Split, join_list, split};
use tt_text::Texts;

// An item of each form.
const ITEMS: &[u8] = b"word {two words} \"two more\" back\\ slash {a {b} c} #sign $name [script] ";

// An operand of a function, with others in it.
const OPERAND: &[u8] = b"12 * $x - abs(3), ";

// How often a chain is read; the least times are reported.
const ROUNDS: usize = 16;

pub(crate) fn run_all(
    rt: &(impl Clock + Print),
    alloc: Global,
    is_timed: bool,
) -> anyhow::Result<()> {
    run(rt, alloc, 1 << 16, is_timed)?;
    run_expression(rt, alloc, 1 << 16, is_timed)?;
    if is_timed {
        for size in [1 << 10, 1 << 16, 1 << 20] {
            run_chain(rt, alloc, size)?;
        }
        for size in [1 << 18, 1 << 20] {
            run(rt, alloc, size, is_timed)?;
            run_expression(rt, alloc, size, is_timed)?;
        }
    }
    Ok(())
}

fn run(
    rt: &(impl Clock + Print),
    alloc: Global,
    size: usize,
    is_timed: bool,
) -> anyhow::Result<()> {
    let text = list_text(alloc, size)?;
    let start = Instant::now(rt)?;
    let items = items_of(alloc, text.as_slice())?;
    let splitting = start.elapsed(rt)?;
    let start = Instant::now(rt)?;
    let joined = join_list(alloc, items.as_slice())?;
    let joining = start.elapsed(rt)?;
    let count = items.as_slice().len();
    let bytes = joined.as_bytes().len();
    if is_timed {
        let split_time = picoseconds(splitting, text.len());
        let join_time = picoseconds(joining, bytes);
        println!(rt; "{size} bytes: split {split_time} ps a byte, joined {join_time} ps a byte")?;
    } else {
        println!(rt; "{size} bytes: {count} items, joined {bytes} bytes")?;
    }
    Ok(())
}

fn run_expression(
    rt: &(impl Clock + Print),
    alloc: Global,
    size: usize,
    is_timed: bool,
) -> anyhow::Result<()> {
    let text = expression_text(alloc, size)?;
    let start = Instant::now(rt)?;
    let parsed = parse(alloc, text.as_slice())?;
    let reading = start.elapsed(rt)?;
    let Parsed::Tree(_) = parsed else {
        anyhow::bail!("not an expression");
    };
    if is_timed {
        let read_time = picoseconds(reading, text.len());
        println!(rt; "{size} bytes: expression read {read_time} ps a byte")?;
    } else {
        println!(rt; "{size} bytes: an expression of {} bytes", text.len())?;
    }
    Ok(())
}

// A chain `1+1+..` of this size: past 1,000 operators it is reported as nested too deeply.
fn run_chain(rt: &(impl Clock + Print), alloc: Global, size: usize) -> anyhow::Result<()> {
    let mut text = Vec::from_slice(alloc, b"1")?;
    for _ in 0..size / 2 {
        text.extend_from_slice(b"+1")?;
    }
    let mut least = time_of(rt, alloc, text.as_slice())?;
    for _ in 1..ROUNDS {
        least = least.min(time_of(rt, alloc, text.as_slice())?);
    }
    println!(rt; "{size} bytes: a chain read {least} ps a byte")?;
    Ok(())
}

// How long reading an expression takes, in picoseconds a byte.
fn time_of(rt: &impl Clock, alloc: Global, text: &[u8]) -> anyhow::Result<u128> {
    let start = Instant::now(rt)?;
    let parsed = parse(alloc, text)?;
    let reading = start.elapsed(rt)?;
    drop(parsed);
    Ok(picoseconds(reading, text.len()))
}

// A function of so many operands that the text has this size.
fn expression_text(alloc: Global, size: usize) -> anyhow::Result<Vec<u8>> {
    let mut text = Vec::from_slice(alloc, b"max(")?;
    for _ in 0..size / OPERAND.len() {
        text.extend_from_slice(OPERAND)?;
    }
    text.extend_from_slice(b"0)")?;
    Ok(text)
}

fn list_text(alloc: Global, size: usize) -> anyhow::Result<Vec<u8>> {
    let mut text = Vec::new(alloc);
    for _ in 0..size / ITEMS.len() {
        text.extend_from_slice(ITEMS)?;
    }
    Ok(text)
}

fn items_of(alloc: Global, text: &[u8]) -> anyhow::Result<Texts> {
    match split(alloc, text)? {
        Split::Items(items) => Ok(items),
        Split::Bad(_) => anyhow::bail!("not a list"),
    }
}

fn picoseconds(time: Duration, bytes: usize) -> u128 {
    time.as_nanos() * 1000 / bytes.max(1) as u128
}
