//! The lines that say what a row begins with and what it comes to.

use crate::row::{Counts, Fails, File, Row};
use rows_reader::{number_of, with_newlines, words_of};
use std::alloc::Global;
use tt_text::{NoMemory, Text};

/// Reads a line after `%% ` into its row.
pub(crate) fn set(alloc: Global, row: &mut Row, line: &[u8]) -> anyhow::Result<()> {
    let (name, values) = cut(line);
    if name == b"words".as_slice() {
        row.words = words_of(alloc, values)?;
    } else if name == b"file".as_slice() {
        row.files.push(file_of(alloc, values)?)?;
    } else if name == b"input".as_slice() {
        row.input = with_newlines(alloc, values)?;
    } else if name == b"fails".as_slice() {
        set_failing(alloc, &mut row.fails, values)?;
    } else if name == b"greatest".as_slice() {
        row.greatest.push(counts_of(values)?)?;
    } else {
        anyhow::bail!("a line that sets nothing")
    }
    Ok(())
}

/// A line's first word, and what follows the space after it.
fn cut(line: &[u8]) -> (&[u8], &[u8]) {
    match line.iter().position(|byte| *byte == b' ') {
        Some(place) => (&line[..place], &line[place + 1..]),
        None => (line, b""),
    }
}

/// A name, and a text in which `\n` stands for a newline.
pub(crate) fn file_of(alloc: Global, line: &[u8]) -> anyhow::Result<File> {
    let (name, text) = cut(line);
    Ok(File {
        name: Text::from_bytes(alloc, name)?,
        bytes: with_newlines(alloc, text)?,
    })
}

/// The lines of a schedule's text, of threads and numbers of steps.
pub(crate) fn steps_of(alloc: Global, line: &[u8]) -> anyhow::Result<Text> {
    let mut steps = Text::new(alloc);
    for (place, word) in words_of(alloc, line)?.as_slice().iter().enumerate() {
        push_word(&mut steps, word, if place % 2 == 0 { b" " } else { b"\n" })?;
    }
    Ok(steps)
}

fn push_word(steps: &mut Text, word: &Text, end: &[u8]) -> Result<(), NoMemory> {
    steps.push_bytes(word.as_bytes())?;
    steps.push_bytes(end)
}

fn set_failing(alloc: Global, fails: &mut Fails, line: &[u8]) -> anyhow::Result<()> {
    let (device, values) = cut(line);
    let calls = numbers(alloc, values)?;
    if device == b"reads".as_slice() {
        fails.reads = calls;
    } else if device == b"writes".as_slice() {
        fails.writes = calls;
    } else if device == b"input".as_slice() {
        fails.input = calls;
    } else if device == b"output".as_slice() {
        fails.output = calls;
    } else if device == b"errors".as_slice() {
        fails.errors = calls;
    } else {
        anyhow::bail!("no device")
    }
    Ok(())
}

fn numbers(alloc: Global, line: &[u8]) -> anyhow::Result<Vec<u64>> {
    let mut numbers = Vec::new(alloc);
    for word in words_of(alloc, line)?.as_slice() {
        numbers.push(u64::from(number_of(word.as_bytes())?))?;
    }
    Ok(numbers)
}

fn counts_of(device: &[u8]) -> anyhow::Result<Counts> {
    if device == b"files".as_slice() {
        Ok(Counts::Files)
    } else if device == b"input".as_slice() {
        Ok(Counts::Input)
    } else if device == b"output".as_slice() {
        Ok(Counts::Output)
    } else if device == b"errors".as_slice() {
        Ok(Counts::Errors)
    } else {
        anyhow::bail!("no device")
    }
}
