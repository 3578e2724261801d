use std::alloc::Global;
use tt_core::{Setup, StepFault, System};
use tt_devices::{MemoryFiles, MemorySink, MemorySource};
use tt_session::{Alone, Status, alone};
use tt_text::{NoMemory, Text, Texts};

/// How many steps a script takes at most.
const MOST_STEPS: u32 = 20_000;

/// How many units each thread may spend, so that each run ends.
const LIMIT: u64 = 200_000;

/// What texts are tried as.
#[derive(Clone, Copy)]
pub(crate) enum Subject<'a> {
    Script,
    /// A schedule of this script.
    ScheduleOf(&'a [u8]),
}

type Run = System<MemorySource, MemorySink, MemorySink>;

impl Subject<'_> {
    /// How a run of the text ends.
    pub(crate) fn end(&self, alloc: Global, text: &[u8]) -> anyhow::Result<Status> {
        match self {
            Subject::Script => end_of_script(alloc, text),
            Subject::ScheduleOf(script) => end_of_schedule(alloc, script, text),
        }
    }
}

fn source(alloc: Global) -> MemorySource {
    MemorySource::new(Vec::new(alloc), Vec::new(alloc))
}

fn sink(alloc: Global) -> MemorySink {
    MemorySink::new(alloc, Vec::new(alloc))
}

fn end_of_script(alloc: Global, script: &[u8]) -> anyhow::Result<Status> {
    let mut system = begin(alloc, setup(alloc, script)?)?;
    let mut last = 0;
    for _ in 0..MOST_STEPS {
        let Some(thread) = system.next_enabled(last) else {
            return Ok(over_or(&system, Status::Stalled));
        };
        if let Some(status) = step(&mut system, thread) {
            return Ok(status);
        }
        last = thread;
    }
    Ok(over_or(&system, Status::StepLimit(u64::from(MOST_STEPS))))
}

/// How the run ends in a step of this thread, or nothing if it was taken.
fn step(system: &mut Run, thread: u32) -> Option<Status> {
    let taken = system.schedule().len();
    if taken >= u64::from(MOST_STEPS) {
        return Some(Status::StepLimit(taken));
    }
    match system.step(thread) {
        Ok(()) => None,
        // Who was found able to take a step takes it.
        Err(StepFault::NotEnabled) => Some(Status::Stalled),
        Err(StepFault::ReadFault) => Some(Status::ReadFault),
        Err(StepFault::WriteFault) => Some(Status::WriteFault),
        Err(StepFault::NoMemory) => Some(Status::NoMemory),
    }
}

fn setup(alloc: Global, script: &[u8]) -> Result<Setup, NoMemory> {
    Ok(Setup {
        script: Text::from_bytes(alloc, script)?,
        name: Text::from_bytes(alloc, b"script")?,
        arguments: Texts::new(alloc),
        limit: LIMIT,
    })
}

// Whoever holds a system pays for its size at each exit, so that it is moved about behind a pointer.
fn begin(alloc: Global, setup: Setup) -> anyhow::Result<Box<Run>> {
    let Ok(system) = System::new(alloc, setup, source(alloc), sink(alloc), sink(alloc)) else {
        anyhow::bail!("out of memory");
    };
    match Box::new(alloc, system) {
        Ok(system) => Ok(system),
        Err(_) => anyhow::bail!("out of memory"),
    }
}

fn over_or(system: &Run, status: Status) -> Status {
    match system.ended() {
        Some(code) => Status::Done(code),
        None => status,
    }
}

fn end_of_schedule(alloc: Global, script: &[u8], schedule: &[u8]) -> anyhow::Result<Status> {
    let mut files = MemoryFiles::new(alloc, Vec::new(alloc), Vec::new(alloc));
    files.add("script", script)?;
    files.add("schedule", schedule)?;
    let mut words = Vec::new(alloc);
    for word in ["--limit", "200000", "--replay", "schedule", "script"] {
        words.push(String::from_str(alloc, word)?)?;
    }
    match alone(
        alloc,
        words.as_slice(),
        &mut files,
        source(alloc),
        sink(alloc),
        sink(alloc),
    ) {
        Alone::Ended(ended) => Ok(ended.status),
        Alone::Plain(..) => anyhow::bail!("words for no replay"),
    }
}
