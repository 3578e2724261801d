//! Lists of 1,000, 10,000 and 100,000 items that a value keeps: each item is read in its turn, as many are put at the
//! end, and the list is copied as often.

use std::alloc::Global;
use std::rt::Clock;
use std::time::{Duration, Instant};
use tt_lists::ListAnswer;
use tt_number::whole_text;
use tt_text::Text;
use tt_value::Value;

/// The counts of items.
const COUNTS: [u32; 3] = [1_000, 10_000, 100_000];

pub(crate) fn run_all(
    rt: &(impl Clock + Print),
    alloc: Global,
    is_timed: bool,
) -> anyhow::Result<()> {
    if !is_timed {
        return tell(rt, alloc, 100);
    }
    for count in COUNTS {
        run(rt, alloc, count)?;
    }
    Ok(())
}

fn tell(rt: &impl Print, alloc: Global, count: u32) -> anyhow::Result<()> {
    let mut list = list_of(alloc, count)?;
    let read = read_each(alloc, &mut list, count)?;
    let mut grown = Value::from_text(Text::new(alloc));
    push_each(alloc, &mut grown, count)?;
    let pushed = grown.to_text(alloc)?.len();
    let copied = copy_often(&list, count)?.to_text(alloc)?.len();
    println!(rt; "{count} items: {read} bytes read, {pushed} bytes pushed, {copied} bytes copied")?;
    Ok(())
}

fn run(rt: &(impl Clock + Print), alloc: Global, count: u32) -> anyhow::Result<()> {
    let mut list = list_of(alloc, count)?;
    let start = Instant::now(rt)?;
    read_each(alloc, &mut list, count)?;
    let reading = picoseconds(start.elapsed(rt)?, count);
    let mut grown = Value::from_text(Text::new(alloc));
    let start = Instant::now(rt)?;
    push_each(alloc, &mut grown, count)?;
    let pushing = picoseconds(start.elapsed(rt)?, count);
    let start = Instant::now(rt)?;
    copy_often(&list, count)?;
    let copying = picoseconds(start.elapsed(rt)?, count);
    println!(rt;
        "{count} items: one read in {reading} ps, one pushed in {pushing} ps, all copied in {copying} ps"
    )?;
    Ok(())
}

// The value of a text that lists the numbers up to a count, each in braces, so that it is no canonical one.
fn list_of(alloc: Global, count: u32) -> anyhow::Result<Value> {
    let mut text = Text::new(alloc);
    for number in 0..count {
        text.push_bytes(b"{")?;
        text.push_bytes(whole_text(alloc, i64::from(number))?.as_bytes())?;
        text.push_bytes(b"} ")?;
    }
    Ok(Value::from_text(text))
}

// How many bytes the items have, read one by one.
fn read_each(alloc: Global, list: &mut Value, count: u32) -> anyhow::Result<u64> {
    let mut bytes = 0_u64;
    for number in 0..count {
        let index = whole_text(alloc, i64::from(number))?;
        match list.item(alloc, index.as_bytes())? {
            ListAnswer::Made(item) => bytes = bytes.wrapping_add(item.len() as u64),
            ListAnswer::Bad(_) => anyhow::bail!("not an item"),
        }
    }
    Ok(bytes)
}

fn push_each(alloc: Global, list: &mut Value, count: u32) -> anyhow::Result<()> {
    for number in 0..count {
        let item = whole_text(alloc, i64::from(number))?;
        anyhow::ensure!(list.push(alloc, &[item])?.is_ok(), "not a list");
    }
    Ok(())
}

// The last of so many copies.
fn copy_often(list: &Value, count: u32) -> anyhow::Result<Value> {
    let mut last = list.copy()?;
    for _ in 1..count {
        last = list.copy()?;
    }
    Ok(last)
}

fn picoseconds(time: Duration, count: u32) -> u128 {
    time.as_nanos() * 1000 / u128::from(count.max(1))
}
