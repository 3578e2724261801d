//! Commands on lists and on texts of 8,192 to 65,536 items or bytes: how long each takes for an item or a byte, and
//! sorting for an item and a step of the logarithm.

use std::alloc::Global;
use std::rt::Clock;
use std::time::Instant;
use tt_calls::Outcome;
use tt_lists::join_list;
use tt_number::whole_text;
use tt_pure::{is_pure, pure};
use tt_text::{Text, Texts};
use tt_value::{Value, Values};

/// A word of a command.
#[derive(Clone, Copy)]
enum Word {
    Is(&'static str),
    /// The list of so many items.
    List,
    /// The text of so many bytes.
    Bytes,
}

use Word::{Bytes, Is, List};

/// The commands that are timed, with their words.
const COMMANDS: [(&str, &[Word]); 7] = [
    ("lindex", &[List, Is("end")]),
    ("lrange", &[List, Is("1"), Is("end-1")]),
    ("lsort", &[Is("-integer"), List]),
    ("join", &[List, Is(",")]),
    ("split", &[Bytes, Is(",")]),
    ("string", &[Is("map"), Is("b {B C} zz y"), Bytes]),
    ("string", &[Is("first"), Is("zz"), Bytes]),
];

/// The counts of items or bytes, each with its logarithm.
const SIZES: [(usize, u128); 4] = [(8_192, 13), (16_384, 14), (32_768, 15), (65_536, 16)];

// How many times are taken; the least is reported.
const ROUNDS: usize = 8;

pub(crate) fn run_all(
    rt: &(impl Clock + Print),
    alloc: Global,
    is_timed: bool,
) -> anyhow::Result<()> {
    if !is_timed {
        return tell(rt, alloc);
    }
    for (count, logarithm) in SIZES {
        run(rt, alloc, count, logarithm)?;
    }
    Ok(())
}

fn tell(rt: &impl Print, alloc: Global) -> anyhow::Result<()> {
    let (list, bytes) = (list_of(alloc, 1024)?, bytes_of(alloc, 1024)?);
    for (name, words) in COMMANDS {
        let words = words_of(alloc, words, &list, &bytes)?;
        let outcome = answer(alloc, name, &words)?;
        let length = outcome.value.to_text(alloc)?.len();
        println!(rt; "{name}: {length} bytes")?;
    }
    Ok(())
}

fn run(
    rt: &(impl Clock + Print),
    alloc: Global,
    count: usize,
    logarithm: u128,
) -> anyhow::Result<()> {
    let (list, bytes) = (list_of(alloc, count)?, bytes_of(alloc, count)?);
    for (name, words) in COMMANDS {
        let words = words_of(alloc, words, &list, &bytes)?;
        let steps = if name == "lsort" { logarithm } else { 1 };
        let time = least_time(rt, alloc, name, &words)?
            .saturating_mul(1000)
            .checked_div((count as u128).saturating_mul(steps))
            .unwrap_or(0);
        println!(rt; "{count}: {name} {time} ps")?;
    }
    Ok(())
}

// The least of some times, in nanoseconds.
fn least_time(rt: &impl Clock, alloc: Global, name: &str, words: &Values) -> anyhow::Result<u128> {
    let mut least = u128::MAX;
    for _ in 0..ROUNDS {
        let start = Instant::now(rt)?;
        answer(alloc, name, words)?;
        least = least.min(start.elapsed(rt)?.as_nanos());
    }
    Ok(least)
}

fn answer(alloc: Global, name: &str, words: &Values) -> anyhow::Result<Outcome> {
    anyhow::ensure!(is_pure(name.as_bytes()), "no such command");
    let outcome = pure(alloc, name.as_bytes(), words.as_slice())?;
    Ok(outcome)
}

fn words_of(alloc: Global, words: &[Word], list: &Text, bytes: &Text) -> anyhow::Result<Values> {
    let mut values = Values::new(alloc);
    for word in words {
        values.push(Value::from_text(match word {
            Is(text) => Text::from_bytes(alloc, text.as_bytes())?,
            List => list.copy()?,
            Bytes => bytes.copy()?,
        }))?;
    }
    Ok(values)
}

// A list of whole numbers in no order.
fn list_of(alloc: Global, count: usize) -> anyhow::Result<Text> {
    let mut items = Texts::new(alloc);
    let mut number = 1_u32;
    for _ in 0..count {
        number = number.wrapping_mul(1_664_525).wrapping_add(1_013_904_223);
        items.push(whole_text(alloc, i64::from(number >> 8))?)?;
    }
    let list = join_list(alloc, items.as_slice())?;
    Ok(list)
}

// Letters, with a comma after each seven.
fn bytes_of(alloc: Global, count: usize) -> anyhow::Result<Text> {
    let mut bytes = Vec::new(alloc);
    for place in 0..count {
        bytes.push(if place % 8 == 7 {
            b','
        } else {
            b'a' + (place % 3) as u8
        })?;
    }
    let text = Text::from_vec(alloc, bytes)?;
    Ok(text)
}
