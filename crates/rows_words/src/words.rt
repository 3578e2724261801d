//! Rows of command lines.
//!
//! The words are parted by spaces, and `''` is the empty word. They ask for `usage`, if they are none of the program's,
//! for `plain SCRIPT (ARGUMENTS) WORKERS STEPS LIMIT FILE`, for `replay FILE SCRIPT (ARGUMENTS) LIMIT REPORT`, or for
//! `generate NUMBER SIZE STEPS LIMIT FILE`. `unkept` stands for no file. The report is `unreported`, if there is none,
//! `waits`, `races`, or `debug FILE`.

use crate::telling::asked_text;
use std::alloc::{AllocError, Global};
use tt_words::read_words;

/// What the words of a line ask for.
pub(crate) fn answer(alloc: Global, line: &str) -> anyhow::Result<String> {
    let words = words(alloc, line)?;
    let text = asked_text(alloc, read_words(alloc, words.as_slice())?)?;
    Ok(text)
}

/// The words of a line.
pub(crate) fn words(alloc: Global, line: &str) -> Result<Vec<String>, AllocError> {
    let mut words = Vec::new(alloc);
    for word in line.split_whitespace() {
        let word = if word == "''" { "" } else { word };
        words.push(String::from_str(alloc, word)?)?;
    }
    Ok(words)
}
