use crate::answers::answer_text;
use crate::names::name_of;
use crate::requests::{line_of, request_of};
use anyhow::Context;
use rows_reader::{Words, number_of, words_of};
use std::alloc::Global;
use tt_calls::{Request, Start};
use tt_lists::join_list;
use tt_shared::{Line, Shared};
use tt_text::Text;

/// Says of the rows of a table how many hold, or the first that doesn't, and what came in place of its answer.
pub(crate) fn tell(rt: &impl Print, alloc: Global, name: &str, text: &str) -> anyhow::Result<()> {
    let mut shared = start(alloc)?;
    tell_rows(rt, alloc, &mut shared, name, text)
}

fn tell_rows(
    rt: &impl Print,
    alloc: Global,
    shared: &mut Shared,
    name: &str,
    text: &str,
) -> anyhow::Result<()> {
    let mut rows = 0_u32;
    for line in text.lines() {
        match kind_of(line) {
            Kind::Text => {}
            Kind::New => start_again(alloc, shared)?,
            Kind::Row => {
                if let Some(came) = row(alloc, shared, line)? {
                    return tell_other(rt, name, line, &came);
                }
                rows = rows.saturating_add(1);
            }
        }
    }
    println!(rt; "{name}: {rows} rows hold")?;
    Ok(())
}

fn tell_other(rt: &impl Print, name: &str, line: &str, came: &Text) -> anyhow::Result<()> {
    let came = str::from_utf8(came.as_bytes())?;
    println!(rt; "{name}: not {line}, but {came}")?;
    Ok(())
}

/// What a line of a table is.
enum Kind {
    Text,
    New,
    Row,
}

fn kind_of(line: &str) -> Kind {
    if line.is_empty() || line.starts_with('#') {
        Kind::Text
    } else if line == "new" {
        Kind::New
    } else {
        Kind::Row
    }
}

fn start_again(alloc: Global, shared: &mut Shared) -> anyhow::Result<()> {
    *shared = start(alloc)?;
    Ok(())
}

// Thread 1 alone, with an empty script.
fn start(alloc: Global) -> anyhow::Result<Shared> {
    let shared = Shared::new(alloc, Start::Script(Text::new(alloc)))?;
    Ok(shared)
}

// What came, if it isn't the row's answer.
fn row(alloc: Global, shared: &mut Shared, line: &str) -> anyhow::Result<Option<Text>> {
    let (request, answer) = line.split_once(" => ").context("a row without an answer")?;
    let words = words_of(alloc, answer.as_bytes())?;
    let answer = join_list(alloc, words.as_slice())?;
    let words = words_of(alloc, request.as_bytes())?;
    let came = ask_often(alloc, shared, words.as_slice())?;
    if came.as_bytes() == answer.as_bytes() {
        return Ok(None);
    }
    Ok(Some(came))
}

// `COUNT * THREAD: REQUEST`, with a count of 1 left out.
fn ask_often(alloc: Global, shared: &mut Shared, words: &[Text]) -> anyhow::Result<Text> {
    match words {
        [count, star, rest @ ..] if star.as_bytes() == b"*".as_slice() => {
            let mut came = Text::new(alloc);
            for _ in 0..number_of(count.as_bytes())? {
                came = ask(alloc, shared, rest)?;
            }
            Ok(came)
        }
        _ => ask(alloc, shared, words),
    }
}

// `THREAD: NAME WORD ..`
fn ask(alloc: Global, shared: &mut Shared, words: &[Text]) -> anyhow::Result<Text> {
    let [thread, name, rest @ ..] = words else {
        anyhow::bail!("a row without a request");
    };
    let thread = thread_of(thread.as_bytes())?;
    let name = name_of(name.as_bytes(), rest.len())?;
    let words = Words { alloc, words: rest };
    let request = request_of(name, &words)?;
    let line = line_of(name, &words)?;
    answer(alloc, shared, thread, &request, line)
}

fn thread_of(word: &[u8]) -> anyhow::Result<u32> {
    match word {
        [number @ .., b':'] => number_of(number),
        _ => anyhow::bail!("a row without a thread"),
    }
}

fn answer(
    alloc: Global,
    shared: &mut Shared,
    thread: u32,
    request: &Request,
    line: Line,
) -> anyhow::Result<Text> {
    if !shared.lives(thread) {
        return word(alloc, b"ended");
    }
    if !shared.enabled(thread, request) {
        return word(alloc, b"waits");
    }
    let gives = shared.apply(thread, request, line)?;
    answer_text(alloc, &gives)
}

fn word(alloc: Global, word: &[u8]) -> anyhow::Result<Text> {
    let word = Text::from_bytes(alloc, word)?;
    Ok(word)
}
