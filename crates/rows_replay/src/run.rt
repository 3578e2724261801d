//! Rows are run over devices in memory.

use crate::row::{Came, Row, Steps};
use rows_reader::copies;
use std::alloc::Global;
use tt_core::{Setup, StepFault, System};
use tt_devices::{MemorySink, MemorySource};
use tt_schedule::{Schedule, print};
use tt_text::{NoMemory, Text};

/// How many steps a run takes at most.
const MOST_STEPS: u32 = 200_000;

type Run = System<MemorySource, MemorySink, MemorySink>;

/// What a row comes to, and the text of the steps that were taken.
#[derive(Drop)]
pub(crate) struct Ran {
    pub(crate) came: Came,
    pub(crate) schedule: Text,
}

/// How a run ends.
#[derive(Clone, Copy)]
enum End {
    Done(u8),
    ScheduleEnded,
    BadEntry(u64),
    Stalled,
    StepLimit,
    ReadFault,
    WriteFault,
}

/// Runs a row.
pub(crate) fn run(alloc: Global, row: &Row) -> anyhow::Result<Ran> {
    let mut system = begin(alloc, row)?;
    let end = ended(&mut system, row);
    let (schedule, _input, output, errors) = finished(system);
    result_of(alloc, end, &schedule, output.bytes(), errors.bytes())
}

fn begin(alloc: Global, row: &Row) -> anyhow::Result<Box<Run>> {
    let setup = setup_of(alloc, row)?;
    let input = Vec::from_slice(alloc, row.input.as_bytes())?;
    let input = MemorySource::new(input, Vec::from_slice(alloc, &[row.fails.input])?);
    let output = MemorySink::new(alloc, Vec::from_slice(alloc, &[row.fails.output])?);
    let errors = MemorySink::new(alloc, Vec::from_slice(alloc, &[row.fails.errors])?);
    match System::new(alloc, setup, input, output, errors) {
        Ok(system) => boxed(alloc, system),
        Err(_) => anyhow::bail!("out of memory"),
    }
}

fn setup_of(alloc: Global, row: &Row) -> Result<Setup, NoMemory> {
    Ok(Setup {
        script: Text::from_bytes(alloc, row.text())?,
        name: Text::from_bytes(alloc, b"row.tcl")?,
        arguments: copies(alloc, row.arguments.as_slice())?,
        limit: row.limit,
    })
}

// Whoever holds a system pays for its size at each exit, so that it is moved about behind a pointer.
fn boxed(alloc: Global, system: Run) -> anyhow::Result<Box<Run>> {
    match Box::new(alloc, system) {
        Ok(system) => Ok(system),
        Err(_) => anyhow::bail!("out of memory"),
    }
}

fn finished(system: Box<Run>) -> (Schedule, MemorySource, MemorySink, MemorySink) {
    Box::into_inner(system).finish()
}

fn result_of(
    alloc: Global,
    end: anyhow::Result<End>,
    schedule: &Schedule,
    out: &[u8],
    err: &[u8],
) -> anyhow::Result<Ran> {
    let ran = Ran {
        came: Came {
            out: Text::from_bytes(alloc, out)?,
            err: Text::from_bytes(alloc, err)?,
            end: end_text(alloc, end?)?,
        },
        schedule: print(alloc, schedule)?,
    };
    Ok(ran)
}

fn ended(system: &mut Run, row: &Row) -> anyhow::Result<End> {
    match &row.schedule {
        Some(schedule) => follow(system, schedule.as_slice()),
        None => take_turns(system),
    }
}

fn follow(system: &mut Run, schedule: &[Steps]) -> anyhow::Result<End> {
    for steps in schedule {
        if let Some(end) = take(system, *steps)? {
            return Ok(end);
        }
    }
    Ok(over_or(system, End::ScheduleEnded))
}

// How the run ends in these steps, or nothing if all of them were taken.
fn take(system: &mut Run, steps: Steps) -> anyhow::Result<Option<End>> {
    for _ in 0..steps.count {
        if let Some(end) = step(system, steps.thread)? {
            return Ok(Some(end));
        }
    }
    Ok(None)
}

fn take_turns(system: &mut Run) -> anyhow::Result<End> {
    let mut last = 0;
    for _ in 0..MOST_STEPS {
        let Some(next) = system.next_enabled(last) else {
            return Ok(over_or(system, End::Stalled));
        };
        if let Some(end) = step(system, next)? {
            return Ok(end);
        }
        last = next;
    }
    Ok(over_or(system, End::StepLimit))
}

fn step(system: &mut Run, thread: u32) -> anyhow::Result<Option<End>> {
    let taken = system.schedule().len();
    if taken >= u64::from(MOST_STEPS) {
        return Ok(Some(End::StepLimit));
    }
    match system.step(thread) {
        Ok(()) => Ok(None),
        Err(StepFault::NotEnabled) => Ok(Some(End::BadEntry(taken + 1))),
        Err(StepFault::ReadFault) => Ok(Some(End::ReadFault)),
        Err(StepFault::WriteFault) => Ok(Some(End::WriteFault)),
        Err(StepFault::NoMemory) => anyhow::bail!("out of memory"),
    }
}

fn over_or(system: &Run, end: End) -> End {
    match system.ended() {
        Some(code) => End::Done(code),
        None => end,
    }
}

fn end_text(alloc: Global, end: End) -> anyhow::Result<Text> {
    let words = match end {
        End::Done(code) => format!(in alloc; "done {code}")?,
        End::ScheduleEnded => format!(in alloc; "schedule ended")?,
        End::BadEntry(entry) => format!(in alloc; "bad entry {entry}")?,
        End::Stalled => format!(in alloc; "stalled")?,
        End::StepLimit => format!(in alloc; "step limit")?,
        End::ReadFault => format!(in alloc; "read fault")?,
        End::WriteFault => format!(in alloc; "write fault")?,
    };
    let text = Text::from_bytes(alloc, words.as_bytes())?;
    Ok(text)
}
