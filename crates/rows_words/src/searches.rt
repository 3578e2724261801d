//! Rows of command lines of `tclsearch`.
//!
//! The words are parted by spaces, and `''` is the empty word. They ask for `usage`, if they are none of the program's,
//! or for `search SCRIPT (ARGUMENTS) RUNS SEED SWITCHES STEPS LIMIT WORKERS DIFFERENCE FILE`; the difference is `end` or
//! `output`, and `unkept` stands for no file.

use crate::telling::search_text;
use crate::words::words;
use std::alloc::Global;
use tt_search_words::read_words;

/// What the words of a line ask for.
pub(crate) fn answer(alloc: Global, line: &str) -> anyhow::Result<String> {
    let words = words(alloc, line)?;
    let text = search_text(alloc, read_words(alloc, words.as_slice())?)?;
    Ok(text)
}
