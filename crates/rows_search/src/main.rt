//! Scripts that are searched for a schedule under which they fail. `scripts.rows` has a line for each: the script's file,
//! the most runs, perhaps the file of its standard input, and how its find ends: `done CODE` or `stalled`, or `none` for a
//! script without a fault. This says how many rows hold, and shows what came in place of the others.
//!
//! A row holds if that is so for each of ten seeds, for one worker and for four, and if the schedule that is recorded is
//! the same for both and is replayed to the same output.
#![tactic(auto)]

mod call;
mod words;

use call::{Case, Left, replayed, searched};
use rows_reader::Tally;
use std::fs;
use std::rt::Files;
use std::thread::Threads;
use words::words_of;

/// With how many seeds each script is searched, from 0 on.
const SEEDS: u64 = 10;

fn main(rt: HostRuntime) -> anyhow::Result<()> {
    let table = fs::read_to_string(&rt, "scripts.rows")?;
    let mut tally = Tally::new();
    for line in table.lines() {
        if let Some((words, wanted)) = line.split_once(" => ") {
            tally.count(holds(&rt, words, wanted)?);
        }
    }
    println!(rt; "{} of {} scripts hold", tally.held, tally.rows)?;
    Ok(())
}

/// Whether each search of a script ends as it should; if one doesn't, what came is shown.
fn holds<R: Print + Files + Threads + Sync + AllocGlobal>(
    rt: &R,
    words: &str,
    wanted: &str,
) -> anyhow::Result<bool> {
    let case = case_of(rt, words)?;
    for seed in 0..SEEDS {
        let one = searched(rt, &case, seed, 1)?;
        let four = searched(rt, &case, seed, 4)?;
        if one.end.as_str() != wanted {
            println!(rt; "{words}: seed {seed}: {}", one.end.as_str())?;
            return Ok(false);
        }
        if !is_same(&one, &four) {
            println!(rt; "{words}: seed {seed}: another find by four workers")?;
            return Ok(false);
        }
        if !is_replayed(rt, &case, &one)? {
            println!(rt; "{words}: seed {seed}: another replay")?;
            return Ok(false);
        }
    }
    Ok(true)
}

/// The case of a line: its files are read.
fn case_of<R: Files + AllocGlobal>(rt: &R, line: &str) -> anyhow::Result<Case> {
    let words = words_of(rt.alloc(), line)?;
    let (script, runs, input) = match words.as_slice() {
        [script, runs] => (script, runs, None),
        [script, runs, input] => (script, runs, Some(input)),
        _ => anyhow::bail!("a line of other words"),
    };
    let input = match input {
        Some(name) => fs::read_to_string(rt, name.as_str())?,
        None => String::new(rt.alloc()),
    };
    Ok(Case {
        script: fs::read_to_string(rt, script.as_str())?,
        runs: String::from_str(rt.alloc(), runs.as_str())?,
        input,
    })
}

/// Whether two searches ended in the same way, with the same output and the same schedule.
fn is_same(one: &Left, other: &Left) -> bool {
    one.end.as_str() == other.end.as_str()
        && one.output.as_slice() == other.output.as_slice()
        && one.record.as_slice() == other.record.as_slice()
}

/// Whether the schedule of a find is replayed to the same output; so it is if there is no find.
fn is_replayed<R: AllocGlobal>(rt: &R, case: &Case, left: &Left) -> anyhow::Result<bool> {
    if left.record.is_empty() {
        return Ok(true);
    }
    let output = replayed(rt.alloc(), case, left.record.as_slice())?;
    Ok(output.as_slice() == left.output.as_slice())
}
