//! A search and a replay over devices in memory.

use crate::words::{end_words, words_of};
use std::alloc::Global;
use std::thread::Threads;
use tt_devices::{MemoryFiles, MemorySink, MemorySource};
use tt_search::{Searched, search};
use tt_session::{Alone, alone};

/// A script that is searched.
#[derive(Drop)]
pub(crate) struct Case {
    pub(crate) script: String,
    /// The most runs, in decimal.
    pub(crate) runs: String,
    pub(crate) input: String,
}

/// What a search left.
#[derive(Drop)]
pub(crate) struct Left {
    /// How it ended, in words.
    pub(crate) end: String,
    pub(crate) output: Vec<u8>,
    /// The schedule that it recorded, or nothing.
    pub(crate) record: Vec<u8>,
}

/// What a search of a script leaves, with this seed, on so many workers.
pub(crate) fn searched<R: Threads + Sync + AllocGlobal>(
    rt: &R,
    case: &Case,
    seed: u64,
    workers: u32,
) -> anyhow::Result<Left> {
    let alloc = rt.alloc();
    let line = format!(in alloc;
        "--seed {seed} --workers {workers} --runs {} --record kept script",
        case.runs.as_str()
    )?;
    let words = words_of(alloc, line.as_str())?;
    let mut files = files_of(alloc, case)?;
    let Searched {
        end,
        input: _,
        output,
        errors: _,
    } = search(
        rt,
        alloc,
        words.as_slice(),
        &mut files,
        source_of(alloc, case)?,
        MemorySink::new(alloc, Vec::new(alloc)),
        MemorySink::new(alloc, Vec::new(alloc)),
    );
    let record = match files.bytes("kept") {
        Some(bytes) => Vec::from_slice(alloc, bytes)?,
        None => Vec::new(alloc),
    };
    Ok(Left {
        end: end_words(alloc, &end)?,
        output: Vec::from_slice(alloc, output.bytes())?,
        record,
    })
}

/// What a replay of a script after a schedule's text writes on standard output.
pub(crate) fn replayed(alloc: Global, case: &Case, text: &[u8]) -> anyhow::Result<Vec<u8>> {
    let words = words_of(alloc, "--replay kept script")?;
    let mut files = files_of(alloc, case)?;
    files.add("kept", text)?;
    let left = alone(
        alloc,
        words.as_slice(),
        &mut files,
        source_of(alloc, case)?,
        MemorySink::new(alloc, Vec::new(alloc)),
        MemorySink::new(alloc, Vec::new(alloc)),
    );
    let output = match left {
        Alone::Ended(ended) => Vec::from_slice(alloc, ended.output.bytes())?,
        Alone::Plain(_input, output, _errors) => Vec::from_slice(alloc, output.bytes())?,
    };
    Ok(output)
}

/// The files of a case: its script alone.
fn files_of(alloc: Global, case: &Case) -> anyhow::Result<MemoryFiles> {
    let mut files = MemoryFiles::new(alloc, Vec::new(alloc), Vec::new(alloc));
    files.add("script", case.script.as_bytes())?;
    Ok(files)
}

/// The standard input of a case.
fn source_of(alloc: Global, case: &Case) -> anyhow::Result<MemorySource> {
    let bytes = Vec::from_slice(alloc, case.input.as_bytes())?;
    Ok(MemorySource::new(bytes, Vec::new(alloc)))
}
