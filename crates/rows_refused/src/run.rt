//! A run after its schedule.

use std::alloc::{AllocError, Global};
use tt_devices::{Files, MemorySink, MemorySource};
use tt_session::{Alone, Ended, alone};

/// What a run left.
pub(crate) type Left = Ended<MemorySource, MemorySink, MemorySink>;

/// Runs the script of this name after the schedule of this name.
///
/// `AllocError` if memory for its words was refused; then nothing was done.
pub(crate) fn run<F: Files>(alloc: Global, files: &mut F, name: &str) -> Result<Left, AllocError> {
    let words = words(alloc, name)?;
    let input = MemorySource::new(Vec::new(alloc), Vec::new(alloc));
    let output = MemorySink::new(alloc, Vec::new(alloc));
    let errors = MemorySink::new(alloc, Vec::new(alloc));
    match alone(alloc, words.as_slice(), files, input, output, errors) {
        Alone::Ended(left) => Ok(left),
        // The words ask for a replay.
        Alone::Plain(..) => Err(AllocError),
    }
}

fn words(alloc: Global, name: &str) -> Result<Vec<String>, AllocError> {
    let mut words = Vec::new(alloc);
    words.push(String::from_str(alloc, "--replay")?)?;
    words.push(format!(in alloc; "{name}.schedule")?)?;
    words.push(script_name(alloc, name)?)?;
    Ok(words)
}

/// The file that has the script of this name.
pub(crate) fn script_name(alloc: Global, name: &str) -> Result<String, AllocError> {
    format!(in alloc; "{name}.tcl")
}
