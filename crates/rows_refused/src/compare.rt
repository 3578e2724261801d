//! What a run wrote, beside a fresh run of the steps that it took.

use crate::run::{Left, script_name};
use std::alloc::Global;
use tt_core::{Setup, System};
use tt_devices::{Files, MemorySink, MemorySource};
use tt_schedule::Schedule;
use tt_session::Status;
use tt_text::{Text, Texts};

/// The most units that a thread may spend, if the words name none.
const LIMIT: u64 = 1 << 62;

/// The most steps of a schedule.
const MOST_STEPS: u64 = 16_777_216;

type Run = System<MemorySource, MemorySink, MemorySink>;

/// A fresh run.
#[derive(Drop)]
struct Fresh {
    over: Option<u8>,
    output: MemorySink,
    errors: MemorySink,
}

/// Whether what the run of this name wrote, and how it ended, agrees with a fresh run of its steps.
pub(crate) fn agrees<F: Files>(
    alloc: Global,
    files: &mut F,
    name: &str,
    left: &Left,
) -> anyhow::Result<bool> {
    let steps = left.schedule.len();
    let fresh = run_again(alloc, files, name, &left.schedule, steps)?;
    match &left.status {
        Status::Done(code) => Ok(fresh.over == Some(*code) && is_whole(&fresh, left, b"")),
        Status::NoMemory => Ok(is_whole(&fresh, left, b"tclthread: no memory\n")),
        Status::WriteFault => {
            let Some(earlier) = steps.checked_sub(1) else {
                return Ok(false);
            };
            let before = run_again(alloc, files, name, &left.schedule, earlier)?;
            Ok(is_cut(&before, &fresh, left))
        }
        _ => Ok(false),
    }
}

/// Whether both outputs got what the fresh run wrote, and standard error the line after it.
fn is_whole(fresh: &Fresh, left: &Left, line: &[u8]) -> bool {
    let (output, errors) = (left.output.bytes(), left.errors.bytes());
    output == fresh.output.bytes() && errors.strip_prefix(fresh.errors.bytes()) == Some(line)
}

/// Whether an output lacks at most a part of what the last step wrote. The status line comes if that is standard
/// output.
fn is_cut(before: &Fresh, fresh: &Fresh, left: &Left) -> bool {
    let output = left.output.bytes();
    let errors = match left
        .errors
        .bytes()
        .strip_suffix(b"tclthread: write fault\n")
    {
        Some(errors) => errors,
        None => left.errors.bytes(),
    };
    let has_line = errors.len() < left.errors.bytes().len();
    has_line == (errors == fresh.errors.bytes())
        && lies_between(before.output.bytes(), output, fresh.output.bytes())
        && lies_between(before.errors.bytes(), errors, fresh.errors.bytes())
}

/// Whether each of these texts begins with the one before it.
fn lies_between(before: &[u8], text: &[u8], after: &[u8]) -> bool {
    text.starts_with(before) && after.starts_with(text)
}

/// Takes so many of the steps in a fresh run.
fn run_again<F: Files>(
    alloc: Global,
    files: &mut F,
    name: &str,
    schedule: &Schedule,
    steps: u64,
) -> anyhow::Result<Fresh> {
    let mut system = begin(alloc, setup(alloc, files, name)?)?;
    for place in 0..steps {
        if !take(&mut system, schedule, place) {
            anyhow::bail!("a step that was taken can't be taken again");
        }
    }
    let over = system.ended();
    let (_schedule, _input, output, errors) = Box::into_inner(system).finish();
    Ok(Fresh {
        over,
        output,
        errors,
    })
}

/// Whether the step at this place could be taken.
fn take(system: &mut Run, schedule: &Schedule, place: u64) -> bool {
    if place >= schedule.len() || system.schedule().len() >= MOST_STEPS {
        return false;
    }
    system.step(schedule.at(place)).is_ok()
}

fn setup<F: Files>(alloc: Global, files: &mut F, name: &str) -> anyhow::Result<Setup> {
    let name = script_name(alloc, name)?;
    let Ok(script) = files.read(alloc, name.as_str()) else {
        anyhow::bail!("no script");
    };
    Ok(Setup {
        script: Text::from_bytes(alloc, script.as_slice())?,
        name: Text::from_bytes(alloc, name.as_bytes())?,
        arguments: Texts::new(alloc),
        limit: LIMIT,
    })
}

// Whoever holds a system pays for its size at each exit, so that it is moved about behind a pointer.
fn begin(alloc: Global, setup: Setup) -> anyhow::Result<Box<Run>> {
    let input = MemorySource::new(Vec::new(alloc), Vec::new(alloc));
    let output = MemorySink::new(alloc, Vec::new(alloc));
    let errors = MemorySink::new(alloc, Vec::new(alloc));
    let Ok(system) = System::new(alloc, setup, input, output, errors) else {
        anyhow::bail!("out of memory");
    };
    match Box::new(alloc, system) {
        Ok(system) => Ok(system),
        Err(_) => anyhow::bail!("out of memory"),
    }
}
