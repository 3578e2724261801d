//! One variable is read and written again and again, among 10, 1,000 and 100,000 others, through no link and
//! through ten.

use std::alloc::Global;
use std::rt::Clock;
use std::time::Instant;
use tt_number::whole_text;
use tt_text::Text;
use tt_value::Value;
use tt_vars::{Linked, Vars, Written};

// How many links lead from the highest frame to the variable.
const LINKS: u64 = 10;

// How often it is read or written for one time.
const TIMES: u32 = 100_000;

// How many times are taken; the least is reported.
const ROUNDS: usize = 16;

pub(crate) fn run_all(
    rt: &(impl Clock + Print),
    alloc: Global,
    is_timed: bool,
) -> anyhow::Result<()> {
    if !is_timed {
        return tell(rt, alloc);
    }
    for others in [10, 1_000, 100_000] {
        run(rt, alloc, others)?;
    }
    Ok(())
}

// What is read among 10 others.
fn tell(rt: &impl Print, alloc: Global) -> anyhow::Result<()> {
    let name = Text::from_bytes(alloc, b"variable")?;
    let vars = variables(alloc, &name, 10)?;
    for frame in [0, LINKS] {
        let bytes = read_often(alloc, &vars, frame, &name, 100)?;
        println!(rt; "among 10, through {frame} links: {bytes} bytes read")?;
    }
    Ok(())
}

fn run(rt: &(impl Clock + Print), alloc: Global, others: i64) -> anyhow::Result<()> {
    let name = Text::from_bytes(alloc, b"variable")?;
    let mut vars = variables(alloc, &name, others)?;
    for frame in [0, LINKS] {
        let reading = least_time(rt, alloc, &mut vars, frame, &name, false)?;
        let writing = least_time(rt, alloc, &mut vars, frame, &name, true)?;
        println!(rt;
            "among {others}, through {frame} links: read in {reading} ps, written in {writing} ps"
        )?;
    }
    Ok(())
}

// The variable among so many others in the global frame, and a chain of links to it, made from its end.
fn variables(alloc: Global, name: &Text, others: i64) -> anyhow::Result<Vars> {
    let mut vars = Vars::new(alloc)?;
    for number in 0..others {
        set(
            &mut vars,
            0,
            &whole_text(alloc, number)?,
            Value::from_whole(number),
        )?;
    }
    set(&mut vars, 0, name, Value::from_whole(12345))?;
    for _ in 0..LINKS {
        vars.push_frame()?;
    }
    for frame in (1..=LINKS).rev() {
        anyhow::ensure!(frame <= vars.depth(), "no such frame");
        let linked = vars.link(frame, name, frame - 1, name, None)?;
        anyhow::ensure!(linked == Linked::Yes, "not linked");
    }
    Ok(vars)
}

fn set(vars: &mut Vars, frame: u64, name: &Text, value: Value) -> anyhow::Result<()> {
    anyhow::ensure!(frame <= vars.depth(), "no such frame");
    let written = vars.write(frame, name, None, value)?;
    anyhow::ensure!(written == Written::Yes, "not written");
    Ok(())
}

// The least of some times, in picoseconds for one reading or writing.
fn least_time(
    rt: &impl Clock,
    alloc: Global,
    vars: &mut Vars,
    frame: u64,
    name: &Text,
    is_written: bool,
) -> anyhow::Result<u128> {
    let mut least = u128::MAX;
    for _ in 0..ROUNDS {
        let start = Instant::now(rt)?;
        if is_written {
            write_often(vars, frame, name)?;
        } else {
            read_often(alloc, vars, frame, name, TIMES)?;
        }
        let time = start.elapsed(rt)?;
        least = least.min(time.as_nanos() * 1000 / u128::from(TIMES));
    }
    Ok(least)
}

fn read_often(
    alloc: Global,
    vars: &Vars,
    frame: u64,
    name: &Text,
    times: u32,
) -> anyhow::Result<u64> {
    let mut bytes = 0_u64;
    for _ in 0..times {
        anyhow::ensure!(frame <= vars.depth(), "no such frame");
        if let Ok(value) = vars.read(frame, name, None) {
            bytes = bytes.wrapping_add(value.to_text(alloc)?.len() as u64);
        }
    }
    Ok(bytes)
}

fn write_often(vars: &mut Vars, frame: u64, name: &Text) -> anyhow::Result<()> {
    for _ in 0..TIMES {
        set(vars, frame, name, Value::from_whole(12345))?;
    }
    Ok(())
}
