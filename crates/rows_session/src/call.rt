//! The call of a row, over devices in memory.

use crate::devices::Counted;
use crate::row::{Came, Counts, File, Row};
use crate::status::reported;
use std::alloc::Global;
use tt_devices::{MemoryFiles, MemorySink, MemorySource};
use tt_schedule::{Schedule, print};
use tt_session::{Alone, Ended, alone};
use tt_text::{NoMemory, Text};

type Left = Ended<Counted<MemorySource>, Counted<MemorySink>, Counted<MemorySink>>;

/// The first line of a schedule's text.
const HEAD: &[u8] = b"schedule 1\n";

/// The file that has the script of a row.
const SCRIPT: &str = "script";

/// A file that no row begins with, under which schedules are recorded.
const KEPT: &str = "kept";

/// What a row's call comes to.
pub(crate) fn call(alloc: Global, row: &Row) -> anyhow::Result<Came> {
    let words = strings(alloc, row.words.as_slice())?;
    let mut files = files_of(alloc, row)?;
    let input = MemorySource::new(
        Vec::from_slice(alloc, row.input.as_bytes())?,
        Vec::from_slice(alloc, row.fails.input.as_slice())?,
    );
    let output = MemorySink::new(alloc, Vec::from_slice(alloc, row.fails.output.as_slice())?);
    let errors = MemorySink::new(alloc, Vec::from_slice(alloc, row.fails.errors.as_slice())?);
    let answer = alone(
        alloc,
        words.as_slice(),
        &mut files,
        counted(row, Counts::Input, input),
        counted(row, Counts::Output, output),
        counted(row, Counts::Errors, errors),
    );
    let mut came = match answer {
        Alone::Ended(ended) => came_of(alloc, &ended)?,
        Alone::Plain(_input, output, errors) => handed_back(alloc, &output, &errors)?,
    };
    came.files = changed(alloc, row, files.device())?;
    Ok(came)
}

fn counted<D: Drop>(row: &Row, counts: Counts, device: D) -> Counted<D> {
    if row.greatest.as_slice().contains(&counts) {
        Counted::AtGreatest(device)
    } else {
        Counted::FromZero(device)
    }
}

fn strings(alloc: Global, words: &[Text]) -> anyhow::Result<Vec<String>> {
    let mut strings = Vec::new(alloc);
    for word in words {
        strings.push(String::from_str(alloc, str::from_utf8(word.as_bytes())?)?)?;
    }
    Ok(strings)
}

fn files_of(alloc: Global, row: &Row) -> anyhow::Result<Counted<MemoryFiles>> {
    let mut files = MemoryFiles::new(
        alloc,
        Vec::from_slice(alloc, row.fails.reads.as_slice())?,
        Vec::from_slice(alloc, row.fails.writes.as_slice())?,
    );
    if let Some(script) = &row.script {
        files.add(SCRIPT, script.as_bytes())?;
    }
    for file in row.files.as_slice() {
        files.add(str::from_utf8(file.name.as_bytes())?, file.bytes.as_bytes())?;
    }
    Ok(counted(row, Counts::Files, files))
}

fn came_of(alloc: Global, ended: &Left) -> anyhow::Result<Came> {
    let mut came = handed_back(alloc, &ended.output, &ended.errors)?;
    came.steps = steps_of(alloc, &ended.schedule)?;
    came.end = reported(alloc, &ended.status)?;
    Ok(came)
}

/// What a call comes to that did nothing.
fn handed_back(
    alloc: Global,
    output: &Counted<MemorySink>,
    errors: &Counted<MemorySink>,
) -> Result<Came, NoMemory> {
    let mut came = Came::new(alloc);
    came.out = Text::from_bytes(alloc, output.device().bytes())?;
    came.err = Text::from_bytes(alloc, errors.device().bytes())?;
    came.end = Text::from_bytes(alloc, b"plain")?;
    Ok(came)
}

/// The lines of a schedule, without the first.
fn steps_of(alloc: Global, schedule: &Schedule) -> anyhow::Result<Text> {
    let text = print(alloc, schedule)?;
    match text.as_bytes().strip_prefix(HEAD) {
        Some(lines) => {
            let lines = Text::from_bytes(alloc, lines)?;
            Ok(lines)
        }
        None => anyhow::bail!("a schedule with another first line"),
    }
}

/// The files that aren't as the row began: those that it began with, and the one under which it may record.
fn changed(alloc: Global, row: &Row, files: &MemoryFiles) -> anyhow::Result<Vec<File>> {
    let mut changed = Vec::new(alloc);
    if let Some(script) = &row.script {
        push_changed(alloc, &mut changed, SCRIPT, Some(script), files)?;
    }
    for file in row.files.as_slice() {
        let name = str::from_utf8(file.name.as_bytes())?;
        push_changed(alloc, &mut changed, name, Some(&file.bytes), files)?;
    }
    push_changed(alloc, &mut changed, KEPT, None, files)?;
    Ok(changed)
}

fn push_changed(
    alloc: Global,
    changed: &mut Vec<File>,
    name: &str,
    before: Option<&Text>,
    files: &MemoryFiles,
) -> anyhow::Result<()> {
    let bytes = files.bytes(name);
    if bytes == before.map(|text| text.as_bytes()) {
        return Ok(());
    }
    changed.push(File {
        name: Text::from_bytes(alloc, name.as_bytes())?,
        bytes: Text::from_bytes(alloc, bytes.unwrap_or(b"no file"))?,
    })?;
    Ok(())
}
