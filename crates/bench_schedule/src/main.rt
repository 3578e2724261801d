//! Schedules of 16,777,216 steps: pushed step by step, read, and printed; and the words of command lines read.
//!
//! Without arguments it says what small ones come to. With an argument it does one thing, so that the memory of the
//! process is that of this alone, and prints how long it took. `start` does nothing. `push`, `read` and `print` are of
//! a schedule whose steps are all of one thread, or with a further argument `turns` of two threads in turn. `words`
//! reads command lines.
#![tactic(auto)]

mod shape;

use shape::{MOST_STEPS, Shape};
use std::alloc::Global;
use std::env;
use std::rt::Clock;
use std::time::Instant;
use tt_schedule::{ReadSchedule, Schedule, print, read};
use tt_words::{Asked, read_words};

/// How many steps a small schedule has that changes its thread at each.
const FEW_STEPS: u32 = 65_536;

/// How many arguments the script has in the command lines that are timed.
const COUNTS: [usize; 3] = [10, 1_000, 100_000];

/// How often a command line is read; the least time is reported.
const ROUNDS: usize = 16;

fn main(rt: HostRuntime) -> anyhow::Result<()> {
    let alloc = rt.alloc();
    let mut arguments = env::args(&rt)?.skip(1);
    let Some(action) = arguments.next() else {
        return tell(&rt, alloc);
    };
    let shape = match arguments.next() {
        None => Shape::OneRow,
        Some(_) => Shape::Turns,
    };
    match action.as_str() {
        "start" => Ok(()),
        "push" => time_pushing(&rt, alloc, shape),
        "read" => time_reading(&rt, alloc, shape),
        "print" => time_printing(&rt, alloc, shape),
        "words" => time_words(&rt, alloc),
        _ => anyhow::bail!("no such action"),
    }
}

/// Says what texts are read as and printed as, and how many arguments a command line has.
fn tell(rt: &impl Print, alloc: Global) -> anyhow::Result<()> {
    for (shape, steps) in [(Shape::OneRow, MOST_STEPS), (Shape::Turns, FEW_STEPS)] {
        let text = shape.text(alloc, steps)?;
        let schedule = schedule_of(alloc, &text)?;
        let again = print(alloc, &schedule)?;
        let answer = if again.as_bytes() == text.as_slice() {
            "the same"
        } else {
            "DIFFERENT"
        };
        println!(rt;
            "{} steps of {} bytes: {answer}",
            schedule.len(),
            text.len()
        )?;
    }
    let pushed = pushed(alloc, Shape::Turns, FEW_STEPS)?;
    println!(rt; "{} steps pushed", pushed.len())?;
    let words = command_line(alloc, 10)?;
    println!(rt; "{} arguments", argument_count(alloc, &words)?)?;
    Ok(())
}

fn time_pushing(rt: &(impl Clock + Print), alloc: Global, shape: Shape) -> anyhow::Result<()> {
    let start = Instant::now(rt)?;
    let schedule = pushed(alloc, shape, MOST_STEPS)?;
    let time = start.elapsed(rt)?;
    println!(rt; "{} steps: {} µs", schedule.len(), time.as_micros())?;
    Ok(())
}

fn time_reading(rt: &(impl Clock + Print), alloc: Global, shape: Shape) -> anyhow::Result<()> {
    let text = shape.text(alloc, MOST_STEPS)?;
    let start = Instant::now(rt)?;
    let schedule = schedule_of(alloc, &text)?;
    let time = start.elapsed(rt)?;
    println!(rt;
        "{} steps of {} bytes: {} µs",
        schedule.len(),
        text.len(),
        time.as_micros()
    )?;
    Ok(())
}

fn time_printing(rt: &(impl Clock + Print), alloc: Global, shape: Shape) -> anyhow::Result<()> {
    let schedule = pushed(alloc, shape, MOST_STEPS)?;
    let start = Instant::now(rt)?;
    let text = print(alloc, &schedule)?;
    let time = start.elapsed(rt)?;
    println!(rt;
        "{} steps, {} bytes: {} µs",
        schedule.len(),
        text.len(),
        time.as_micros()
    )?;
    Ok(())
}

fn time_words(rt: &(impl Clock + Print), alloc: Global) -> anyhow::Result<()> {
    for count in COUNTS {
        let words = command_line(alloc, count)?;
        let mut least = u128::MAX;
        for _ in 0..ROUNDS {
            let start = Instant::now(rt)?;
            let read = argument_count(alloc, &words)?;
            least = least.min(start.elapsed(rt)?.as_nanos());
            anyhow::ensure!(read == count, "an argument is missing");
        }
        let one = least / (words.len().max(1) as u128);
        println!(rt; "{} words: {one} ns a word", words.len())?;
    }
    Ok(())
}

/// The schedule of a text.
fn schedule_of(alloc: Global, text: &[u8]) -> anyhow::Result<Schedule> {
    match read(alloc, text)? {
        ReadSchedule::Read(schedule) => Ok(schedule),
        ReadSchedule::Bad(fault) => anyhow::bail!("a wrong line at byte {}", fault.place),
    }
}

/// A schedule to which each step was added by itself, as a run does.
fn pushed(alloc: Global, shape: Shape, steps: u32) -> anyhow::Result<Schedule> {
    let mut schedule = Schedule::new(alloc);
    for place in 0..steps {
        anyhow::ensure!(schedule.len() < u64::from(MOST_STEPS), "too many steps");
        schedule.push(shape.thread(place))?;
    }
    Ok(schedule)
}

/// The words of a command line with four options and so many arguments.
fn command_line(alloc: Global, count: usize) -> anyhow::Result<Vec<String>> {
    let options = [
        "--workers",
        "4",
        "--steps=1000",
        "--limit",
        "1000",
        "--record=kept",
        "a.tcl",
    ];
    let mut words = Vec::new(alloc);
    for option in options {
        words.push(String::from_str(alloc, option)?)?;
    }
    for _ in 0..count {
        words.push(String::from_str(alloc, "argument")?)?;
    }
    Ok(words)
}

/// How many arguments the words have after the script.
fn argument_count(alloc: Global, words: &[String]) -> anyhow::Result<usize> {
    match read_words(alloc, words)? {
        Some(Asked::Plain(plain)) => Ok(plain.arguments.len()),
        _ => anyhow::bail!("no plain run"),
    }
}
