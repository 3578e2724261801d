//! The lines after `%% `, which say what a run begins with.

use crate::row::{Row, Steps};
use rows_reader::{copies, number_of, with_newlines, words_of};
use std::alloc::Global;
use tt_text::Text;

/// Reads a line into its row.
pub(crate) fn set(alloc: Global, row: &mut Row, line: &[u8]) -> anyhow::Result<()> {
    if let Some(input) = line.strip_prefix(b"input ") {
        row.input = with_newlines(alloc, input)?;
        return Ok(());
    }
    let words = words_of(alloc, line)?;
    match words.as_slice() {
        [name, values @ ..] => set_words(alloc, row, name.as_bytes(), values),
        [] => anyhow::bail!("a line that sets nothing"),
    }
}

fn set_words(alloc: Global, row: &mut Row, name: &[u8], values: &[Text]) -> anyhow::Result<()> {
    if name == b"arguments".as_slice() {
        row.arguments = copies(alloc, values)?;
        return Ok(());
    }
    if name == b"schedule".as_slice() {
        row.schedule = Some(steps(alloc, values)?);
        return Ok(());
    }
    match values {
        [limit] if name == b"limit".as_slice() => {
            row.limit = u64::from(number_of(limit.as_bytes())?);
            Ok(())
        }
        [device, call] if name == b"fails".as_slice() => set_failing(row, device.as_bytes(), call),
        _ => anyhow::bail!("a line that sets nothing"),
    }
}

fn steps(alloc: Global, values: &[Text]) -> anyhow::Result<Vec<Steps>> {
    let mut steps = Vec::new(alloc);
    for pair in values.chunks(2) {
        match pair {
            [thread, count] => steps.push(Steps {
                thread: number_of(thread.as_bytes())?,
                count: number_of(count.as_bytes())?,
            })?,
            _ => anyhow::bail!("a thread with no number of steps"),
        }
    }
    Ok(steps)
}

fn set_failing(row: &mut Row, device: &[u8], call: &Text) -> anyhow::Result<()> {
    let call = u64::from(number_of(call.as_bytes())?);
    if device == b"input".as_slice() {
        row.fails.input = call;
    } else if device == b"output".as_slice() {
        row.fails.output = call;
    } else {
        row.fails.errors = call;
    }
    Ok(())
}
