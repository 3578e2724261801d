//! Scripts of many turns: of `while`, of `while` with a call of an empty procedure, of `foreach`, and of `while` with
//! an `append` to a growing text or a `lappend` to a growing list.
//!
//! Without arguments it says with which code each script of few turns ends. With the argument `times` it prints how
//! long a turn takes, in nanoseconds, for 1,000, 10,000 and 100,000 turns; with the name of a script and a number of
//! turns it prints that of this script alone.
#![tactic(auto)]

use std::alloc::Global;
use std::env;
use std::rt::Clock;
use std::time::Instant;
use tt_calls::{Reply, Request, Start, fits};
use tt_interp::{Interp, Setup};
use tt_number::read_whole;
use tt_text::{Text, Texts};

/// A script: its name, and what stands before and after the number of its turns.
type Case = (&'static str, &'static str, &'static str);

const CASES: [Case; 5] = [
    ("while", "set i 0; while {$i < ", "} {incr i}"),
    (
        "call",
        "proc p {} {}; set i 0; while {$i < ",
        "} {p; incr i}",
    ),
    ("foreach", "foreach x [lrepeat ", " a] {}"),
    (
        "append",
        "set i 0; while {$i < ",
        "} {append s abcdefgh; incr i}",
    ),
    (
        "lappend",
        "set i 0; while {$i < ",
        "} {lappend l $i; incr i}",
    ),
];

const TURNS: [u64; 3] = [1_000, 10_000, 100_000];

// How many turns are reported without arguments.
const FEW: u64 = 100;

// How often each script is timed; the least time is reported.
const ROUNDS: u32 = 5;

fn main(rt: HostRuntime) -> anyhow::Result<()> {
    let mut words = env::args(&rt)?.skip(1);
    match words.next() {
        None => tell_all(&rt, rt.alloc()),
        Some(word) => match words.next() {
            None => time_all(&rt, rt.alloc()),
            Some(turns) => time_named(&rt, rt.alloc(), word.as_str(), turns.as_str()),
        },
    }
}

fn tell_all(rt: &impl Print, alloc: Global) -> anyhow::Result<()> {
    for case in CASES {
        let (name, _, _) = case;
        let code = evaluate(alloc, &setup_of(alloc, case, FEW)?)?;
        println!(rt; "{name}: ended with {code}")?;
    }
    Ok(())
}

fn time_all(rt: &(impl Clock + Print), alloc: Global) -> anyhow::Result<()> {
    for case in CASES {
        for turns in TURNS {
            time(rt, alloc, case, turns)?;
        }
    }
    Ok(())
}

fn time_named(
    rt: &(impl Clock + Print),
    alloc: Global,
    named: &str,
    turns: &str,
) -> anyhow::Result<()> {
    let turns = number(turns);
    for case in CASES {
        let (name, _, _) = case;
        if name == named {
            time(rt, alloc, case, turns)?;
        }
    }
    Ok(())
}

fn number(word: &str) -> u64 {
    match read_whole(word.as_bytes()) {
        Ok(number) => number.unsigned_abs(),
        Err(_) => 0,
    }
}

fn time(rt: &(impl Clock + Print), alloc: Global, case: Case, turns: u64) -> anyhow::Result<()> {
    let (name, _, _) = case;
    let setup = setup_of(alloc, case, turns)?;
    let one = least(rt, alloc, &setup)?
        .checked_div(u128::from(turns))
        .unwrap_or(0);
    println!(rt; "{name}, {turns} turns: {one} ns a turn")?;
    Ok(())
}

// The least time of the rounds, from a new interpreter to the end of its thread.
fn least(rt: &impl Clock, alloc: Global, setup: &Setup) -> anyhow::Result<u128> {
    let mut least = u128::MAX;
    for _ in 0..ROUNDS {
        let start = Instant::now(rt)?;
        let code = evaluate(alloc, setup)?;
        least = least.min(start.elapsed(rt)?.as_nanos());
        anyhow::ensure!(code == 0, "a script that fails");
    }
    Ok(least)
}

fn setup_of(alloc: Global, case: Case, turns: u64) -> anyhow::Result<Setup> {
    let (name, before, after) = case;
    let script = format!(in alloc; "{before}{turns}{after}")?;
    Ok(Setup {
        script: Text::from_bytes(alloc, script.as_bytes())?,
        name: Text::from_bytes(alloc, name.as_bytes())?,
        arguments: Texts::new(alloc),
        limit: 1 << 62,
    })
}

// The code that thread 1 ends with, if each request before is answered that it is done.
fn evaluate(alloc: Global, setup: &Setup) -> anyhow::Result<i64> {
    let start = Start::Script(setup.script.copy()?);
    let mut interp = Interp::new(alloc, &start, 1, setup)?;
    let mut reply = None;
    for _ in 0..u64::MAX {
        anyhow::ensure!(interp.can_resume(&reply), "a script that stops");
        interp.resume(reply)?;
        let request = interp.request();
        if let Request::End { code } | Request::Exit { code } = request {
            return Ok(*code);
        }
        anyhow::ensure!(fits(request, &Reply::Go), "a request for more");
        reply = Some(Reply::Go);
    }
    anyhow::bail!("a script that doesn't end")
}
