//! How a call ended, in words.

use std::alloc::Global;
use tt_session::{Place, Status};
use tt_text::Text;

/// The exit code and the status.
pub(crate) fn reported(alloc: Global, status: &Status) -> anyhow::Result<Text> {
    let mut reported = numbered(alloc, "", u64::from(status.exit()))?;
    reported.push_bytes(b" ")?;
    reported.push_bytes(words(alloc, status)?.as_bytes())?;
    Ok(reported)
}

fn words(alloc: Global, status: &Status) -> anyhow::Result<Text> {
    match status {
        Status::Done(_) => plain(alloc, "done"),
        Status::Usage => plain(alloc, "usage"),
        Status::NoFile(name) => {
            let mut words = Text::from_bytes(alloc, b"no file ")?;
            words.push_bytes(name.as_bytes())?;
            Ok(words)
        }
        Status::BadSchedule(Place::Byte(offset)) => numbered(alloc, "bad byte ", *offset),
        Status::BadSchedule(Place::Entry(number)) => numbered(alloc, "bad entry ", *number),
        Status::TooLong(entries) => numbered(alloc, "too long ", *entries),
        Status::ScheduleEnded => plain(alloc, "schedule ended"),
        Status::Stalled => plain(alloc, "stalled"),
        Status::StepLimit(steps) => numbered(alloc, "step limit ", *steps),
        Status::ReadFault => plain(alloc, "read fault"),
        Status::WriteFault => plain(alloc, "write fault"),
        Status::NoMemory => plain(alloc, "no memory"),
    }
}

fn plain(alloc: Global, words: &str) -> anyhow::Result<Text> {
    let text = Text::from_bytes(alloc, words.as_bytes())?;
    Ok(text)
}

fn numbered(alloc: Global, words: &str, number: u64) -> anyhow::Result<Text> {
    let words = format!(in alloc; "{words}{number}")?;
    let text = Text::from_bytes(alloc, words.as_bytes())?;
    Ok(text)
}
