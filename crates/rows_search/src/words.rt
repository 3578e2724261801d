use std::alloc::{AllocError, Global};
use tt_search::SearchEnd;
use tt_session::Status;

/// The words of a line, parted by spaces.
pub(crate) fn words_of(alloc: Global, line: &str) -> Result<Vec<String>, AllocError> {
    let mut words = Vec::new(alloc);
    for word in line.split_whitespace() {
        words.push(String::from_str(alloc, word)?)?;
    }
    Ok(words)
}

/// How a search ended, in words.
pub(crate) fn end_words(alloc: Global, end: &SearchEnd) -> Result<String, AllocError> {
    match end {
        SearchEnd::Sound => String::from_str(alloc, "none"),
        SearchEnd::Found(Status::Done(code)) => format!(in alloc; "done {code}"),
        SearchEnd::Found(Status::Stalled) => String::from_str(alloc, "stalled"),
        SearchEnd::Found(_) => String::from_str(alloc, "cut off"),
        SearchEnd::Refused(_) => String::from_str(alloc, "refused"),
    }
}
