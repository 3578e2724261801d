//! First commands read: words in braces, scripts in brackets, short bodies, dense scripts, and 1,000
//! brackets or indices, one in the other.
//!
//! Without arguments it says if the lane kernels answer what plain loops do, and where a word of 64 KiB, the brackets
//! and the indices end. With the argument `brackets` or `indices` it reads only those; with `lanes` it prints the times
//! of the kernels, and with any other, as `times`, how long reading takes for a byte.
#![tactic(auto)]

mod lanes;
mod plain;

use std::alloc::Global;
use std::env;
use std::io::Print;
use std::rt::Clock;
use std::time::{Duration, Instant};
use tt_lanes::next_special;
use tt_script::{DEPTH, First, first_command};

// Lines of a script as they stand in the body of a procedure, words, and letters alone.
const TEXTS: [(&str, &[u8]); 3] = [
    ("a script", LINE),
    ("words", b"letters and blanks "),
    ("letters", b"abcdefghijklmnopqrstuvwxyz"),
];

const LINE: &[u8] = b"    set total [expr {$total + $count($index)}]; # the sum \\\n";

// A line of commands for brackets.
const COMMANDS: &[u8] = b"    set total [expr {$total + $count($index)}]; puts \"so far $total\"\n";

// Short commands, and short words of one command.
const DENSE: [(&str, &[u8]); 3] = [
    ("a script of short commands", b"set a $b;incr c($d) [e f]\n"),
    ("a command of short words", b"set a $b incr c($d) [e f] "),
    ("a command of letters", b"a "),
];

// How often each text is read; the least times are printed.
const ROUNDS: usize = 16;

const KIB: usize = 1 << 10;

const MIB: usize = 1 << 20;

fn main(rt: HostRuntime) -> anyhow::Result<()> {
    let alloc = rt.alloc();
    match env::args(&rt)?.nth(1) {
        None => {
            lanes::run_all(&rt, alloc, false)?;
            tell_end(&rt, alloc, "a braced word", &braced(alloc, LINE, 1 << 16)?)?;
            tell_end(&rt, alloc, "brackets", &nested(alloc, b"[", b"]")?)?;
            tell_end(&rt, alloc, "indices", &nested(alloc, b"$a(", b")")?)
        }
        Some(word) => match word.as_str() {
            "brackets" => tell_end(&rt, alloc, "brackets", &nested(alloc, b"[", b"]")?),
            "lanes" => lanes::run_all(&rt, alloc, true),
            "indices" => tell_end(&rt, alloc, "indices", &nested(alloc, b"$a(", b")")?),
            _ => {
                tell_braces(&rt, alloc)?;
                tell_brackets(&rt, alloc)?;
                tell_bodies(&rt, alloc)?;
                tell_dense(&rt, alloc)
            }
        },
    }
}

// Lines up to a size.
fn lines(alloc: Global, line: &[u8], size: usize) -> anyhow::Result<Vec<u8>> {
    let mut text = Vec::new(alloc);
    push_lines(&mut text, line, size)?;
    Ok(text)
}

fn push_lines(text: &mut Vec<u8>, line: &[u8], size: usize) -> anyhow::Result<()> {
    for _ in 0..size / line.len().max(1) {
        text.extend_from_slice(line)?;
    }
    Ok(())
}

fn braced(alloc: Global, line: &[u8], size: usize) -> anyhow::Result<Vec<u8>> {
    let mut text = Vec::new(alloc);
    text.push(b'{')?;
    push_lines(&mut text, line, size)?;
    text.push(b'}')?;
    Ok(text)
}

// Lines in so many brackets, one in the other.
fn in_brackets(alloc: Global, line: &[u8], size: usize, depth: usize) -> anyhow::Result<Vec<u8>> {
    let mut text = Vec::new(alloc);
    for _ in 0..depth {
        text.push(b'[')?;
    }
    push_lines(&mut text, line, size)?;
    for _ in 0..depth {
        text.push(b']')?;
    }
    Ok(text)
}

fn nested(alloc: Global, opens: &[u8], closes: &[u8]) -> anyhow::Result<Vec<u8>> {
    let mut text = Vec::new(alloc);
    for _ in 0..DEPTH {
        text.extend_from_slice(opens)?;
    }
    for _ in 0..DEPTH {
        text.extend_from_slice(closes)?;
    }
    Ok(text)
}

// The place after the first command.
fn end_of(alloc: Global, text: &[u8]) -> anyhow::Result<usize> {
    match first_command(alloc, text, 0)? {
        First::Command(command) => Ok(command.text_end),
        First::Bad(fault, _) => anyhow::bail!("{fault:?}"),
        First::Nothing => Ok(0),
    }
}

// Reads each command.
fn read_all(alloc: Global, text: &[u8]) -> anyhow::Result<()> {
    let mut at = 0;
    for _ in 0..text.len() {
        if at > text.len() {
            anyhow::bail!("past the end");
        }
        match first_command(alloc, text, at)? {
            First::Command(command) => at = command.next,
            First::Bad(fault, _) => anyhow::bail!("{fault:?}"),
            First::Nothing => return Ok(()),
        }
    }
    Ok(())
}

fn tell_end(rt: &impl Print, alloc: Global, what: &str, text: &[u8]) -> anyhow::Result<()> {
    let end = end_of(alloc, text)?;
    println!(rt; "{what}: {end} of {} bytes", text.len())?;
    Ok(())
}

fn tell_braces(rt: &(impl Clock + Print), alloc: Global) -> anyhow::Result<()> {
    for (what, line) in &TEXTS {
        for size in [1 << 16, 1 << 18, 1 << 20] {
            tell_time(rt, alloc, what, &braced(alloc, line, size)?)?;
        }
    }
    Ok(())
}

fn tell_brackets(rt: &(impl Clock + Print), alloc: Global) -> anyhow::Result<()> {
    for depth in &[1, 10, 100] {
        let text = in_brackets(alloc, COMMANDS, MIB, *depth)?;
        let time = picoseconds(least_time(rt, alloc, &text, 1)?, text.len());
        println!(rt;
            "{} bytes in {depth} brackets: {time} ps a byte",
            text.len()
        )?;
    }
    Ok(())
}

fn tell_bodies(rt: &(impl Clock + Print), alloc: Global) -> anyhow::Result<()> {
    tell_body(rt, alloc, "braces", &braced(alloc, COMMANDS, KIB)?)?;
    tell_body(
        rt,
        alloc,
        "brackets",
        &in_brackets(alloc, COMMANDS, KIB, 1)?,
    )
}

fn tell_body(
    rt: &(impl Clock + Print),
    alloc: Global,
    what: &str,
    text: &[u8],
) -> anyhow::Result<()> {
    let time = picoseconds(least_time(rt, alloc, text, KIB)?, text.len()) / KIB as u128;
    println!(rt;
        "a body of {} bytes in {what}: {time} ps a byte",
        text.len()
    )?;
    Ok(())
}

fn tell_dense(rt: &(impl Clock + Print), alloc: Global) -> anyhow::Result<()> {
    for (what, line) in &DENSE {
        let text = lines(alloc, line, MIB)?;
        let mut least = time_commands(rt, alloc, &text)?;
        for _ in 1..ROUNDS {
            least = least.min(time_commands(rt, alloc, &text)?);
        }
        let time = picoseconds(least, text.len());
        println!(rt; "{} bytes of {what}: {time} ps a byte", text.len())?;
    }
    Ok(())
}

fn time_commands(rt: &impl Clock, alloc: Global, text: &[u8]) -> anyhow::Result<Duration> {
    let start = Instant::now(rt)?;
    read_all(alloc, text)?;
    Ok(start.elapsed(rt)?)
}

// The least time in which the text's first command is read so many times.
fn least_time(
    rt: &impl Clock,
    alloc: Global,
    text: &[u8],
    times: usize,
) -> anyhow::Result<Duration> {
    let mut least = time_first(rt, alloc, text, times)?;
    for _ in 1..ROUNDS {
        least = least.min(time_first(rt, alloc, text, times)?);
    }
    Ok(least)
}

fn time_first(
    rt: &impl Clock,
    alloc: Global,
    text: &[u8],
    times: usize,
) -> anyhow::Result<Duration> {
    let start = Instant::now(rt)?;
    for _ in 0..times {
        end_of(alloc, text)?;
    }
    Ok(start.elapsed(rt)?)
}

fn tell_time(
    rt: &(impl Clock + Print),
    alloc: Global,
    what: &str,
    text: &[u8],
) -> anyhow::Result<()> {
    let mut least = time_round(rt, alloc, text)?;
    for _ in 1..ROUNDS {
        least = lesser(&least, &time_round(rt, alloc, text)?);
    }
    let read = picoseconds(least.read, text.len());
    let search = picoseconds(least.search, text.len());
    let scan = picoseconds(least.scan, text.len());
    println!(rt;
        "{} bytes of {what}: read {read} ps a byte, closing brace {search}, {} special bytes {scan}",
        text.len(),
        least.stops
    )?;
    Ok(())
}

// What one round took.
#[derive(Drop)]
struct Round {
    // The whole word.
    read: Duration,
    // The search for its closing brace alone: the word is read without it.
    search: Duration,
    // The scan for special bytes alone.
    scan: Duration,
    // How many special bytes there are.
    stops: usize,
}

fn time_round(rt: &impl Clock, alloc: Global, text: &[u8]) -> anyhow::Result<Round> {
    let start = Instant::now(rt)?;
    end_of(alloc, text)?;
    let read = start.elapsed(rt)?;
    let start = Instant::now(rt)?;
    must_be_open(alloc, text)?;
    let search = start.elapsed(rt)?;
    let start = Instant::now(rt)?;
    let stops = special_count(text);
    let scan = start.elapsed(rt)?;
    Ok(Round {
        read,
        search,
        scan,
        stops,
    })
}

// Reads the text without its last byte, the closing brace.
fn must_be_open(alloc: Global, text: &[u8]) -> anyhow::Result<()> {
    let Some((_, open)) = text.split_last() else {
        return Ok(());
    };
    if matches!(first_command(alloc, open, 0)?, First::Command(_)) {
        anyhow::bail!("a closed word");
    }
    Ok(())
}

fn lesser(first: &Round, second: &Round) -> Round {
    Round {
        read: first.read.min(second.read),
        search: first.search.min(second.search),
        scan: first.scan.min(second.scan),
        stops: second.stops,
    }
}

// How many special bytes there are.
fn special_count(text: &[u8]) -> usize {
    let mut count = 0;
    let mut at = next_special(text, 0);
    while at < text.len() {
        count += 1;
        at = next_special(text, at + 1);
    }
    count
}

fn picoseconds(time: Duration, bytes: usize) -> u128 {
    time.as_nanos() * 1000 / bytes.max(1) as u128
}
