mod calls;
mod faults;
mod laws;
mod workers;

use std::alloc::Global;
use std::sync::Wait;
use std::test::Fail;
use std::thread::Threads;
use tt_devices::{MemoryFiles, MemorySink, MemorySource, OpenGate};
use tt_schedule::Schedule;
use tt_session::{Ended, Place, Status, session};

/// What a call left: the words of its status, its exit code, its steps, what it wrote, and the file that it recorded.
#[derive(Drop)]
struct Left {
    status: String,
    exit: u8,
    schedule: Schedule,
    output: Vec<u8>,
    errors: Vec<u8>,
    kept: Option<Vec<u8>>,
}

/// Which write of a file and which take of the input fail, counted from 1. None has the number 0.
#[derive(Clone, Copy)]
struct Fails {
    writes: u64,
    takes: u64,
}

const NEVER: Fails = Fails {
    writes: 0,
    takes: 0,
};

/// The words of a status.
fn status_words(alloc: Global, status: &Status) -> Result<String, Fail> {
    Ok(match status {
        Status::Done(code) => format!(in alloc; "done {code}")?,
        Status::Usage => format!(in alloc; "usage")?,
        Status::NoFile(name) => format!(in alloc; "no file of {} bytes", name.as_bytes().len())?,
        Status::BadSchedule(Place::Byte(offset)) => format!(in alloc; "bad schedule at {offset}")?,
        Status::BadSchedule(Place::Entry(number)) => format!(in alloc; "bad entry {number}")?,
        Status::TooLong(entries) => format!(in alloc; "too long: {entries}")?,
        Status::ScheduleEnded => format!(in alloc; "schedule ended")?,
        Status::Stalled => format!(in alloc; "stalled")?,
        Status::StepLimit(steps) => format!(in alloc; "step limit {steps}")?,
        Status::ReadFault => format!(in alloc; "read fault")?,
        Status::WriteFault => format!(in alloc; "write fault")?,
        Status::NoMemory => format!(in alloc; "no memory")?,
    })
}

/// Calls the program over devices in memory: the files `script` and `schedule` and an empty file `--x`, this input, and
/// these calls that fail. The file that it records is `kept`.
fn call<R: Threads + Wait + Sync + AllocGlobal>(
    rt: &R,
    words: &[&str],
    script: &[u8],
    schedule: &[u8],
    input: &[u8],
    fails: Fails,
) -> Result<Left, Fail> {
    let alloc = rt.alloc();
    let words = owned(alloc, words)?;
    let mut files = MemoryFiles::new(
        alloc,
        Vec::new(alloc),
        Vec::from_slice(alloc, &[fails.writes])?,
    );
    files.add("script", script)?;
    files.add("schedule", schedule)?;
    files.add("--x", b"")?;
    let input = MemorySource::new(
        Vec::from_slice(alloc, input)?,
        Vec::from_slice(alloc, &[fails.takes])?,
    );
    let output = MemorySink::new(alloc, Vec::new(alloc));
    let errors = MemorySink::new(alloc, Vec::new(alloc));
    let ended = session(
        rt, alloc, &words, &mut files, input, output, errors, &OpenGate,
    );
    let kept = match files.bytes("kept") {
        Some(bytes) => Some(Vec::from_slice(alloc, bytes)?),
        None => None,
    };
    left_of(alloc, ended, kept)
}

fn owned(alloc: Global, words: &[&str]) -> Result<Vec<String>, Fail> {
    let mut owned = Vec::new(alloc);
    for word in words {
        owned.push(String::from_str(alloc, word)?)?;
    }
    Ok(owned)
}

fn left_of(
    alloc: Global,
    ended: Ended<MemorySource, MemorySink, MemorySink>,
    kept: Option<Vec<u8>>,
) -> Result<Left, Fail> {
    let Ended {
        status,
        schedule,
        input: _,
        output,
        errors,
    } = ended;
    Ok(Left {
        status: status_words(alloc, &status)?,
        exit: status.exit(),
        schedule,
        output: Vec::from_slice(alloc, output.bytes())?,
        errors: Vec::from_slice(alloc, errors.bytes())?,
        kept,
    })
}

/// The words of a replay.
const WORDS: [&str; 3] = ["--replay", "schedule", "script"];
