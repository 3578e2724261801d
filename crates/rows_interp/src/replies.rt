//! A reply is written by its name and what it holds: truth as 0 or 1, an outcome as its code, its value, its trace and
//! the code that it keeps.

use crate::telling::CODES;
use rows_reader::{Words, words_of};
use std::alloc::Global;
use tt_calls::{Event, Outcome, Reply, Shape};
use tt_text::Text;
use tt_value::Value;

// How replies are written: a name, how many words follow, and which it is.
const REPLIES: [(&str, usize, Shape); 16] = [
    ("Go", 0, Shape::Go),
    ("Value", 1, Shape::Value),
    ("Refused", 1, Shape::Refused),
    ("Found", 2, Shape::Found),
    ("Posted", 1, Shape::Posted),
    ("Waits", 1, Shape::Waits),
    ("Answer", 4, Shape::Answer),
    ("Died", 0, Shape::Died),
    ("NoEvent", 0, Shape::NoEvent),
    ("Served", 1, Shape::Served),
    ("Line", 1, Shape::Line),
    ("LineEnd", 0, Shape::LineEnd),
    ("Job", 3, Shape::Job),
    ("JobStop", 0, Shape::JobStop),
    ("Lists", 2, Shape::Lists),
    ("Cancelled", 1, Shape::Cancelled),
];

// Those of events.
const EVENTS: [(&str, usize, Happens); 5] = [
    ("Script", 4, Happens::Script),
    ("SetVar", 2, Happens::SetVar),
    ("Moved", 1, Happens::Moved),
    ("Timer", 2, Happens::Timer),
    ("Stop", 0, Happens::Stop),
];

#[derive(Clone, Copy)]
enum Happens {
    Script,
    SetVar,
    Moved,
    Timer,
    Stop,
}

/// The reply that is written so.
pub(crate) fn read_reply(alloc: Global, text: &Text) -> anyhow::Result<Reply> {
    let words = words_of(alloc, text.as_bytes())?;
    match words.as_slice() {
        [event, name, rest @ ..] if event.as_bytes() == b"Event".as_slice() => {
            let happens = found(&EVENTS, name, rest)?;
            let event = event_of(happens, &Words { alloc, words: rest })?;
            Ok(Reply::Event(event))
        }
        [name, rest @ ..] => reply_of(found(&REPLIES, name, rest)?, &Words { alloc, words: rest }),
        [] => anyhow::bail!("an empty reply"),
    }
}

fn found<T: Copy>(names: &[(&str, usize, T)], word: &Text, rest: &[Text]) -> anyhow::Result<T> {
    for (name, count, which) in names {
        if word.as_bytes() == name.as_bytes() && rest.len() == *count {
            return Ok(*which);
        }
    }
    anyhow::bail!("no reply")
}

fn reply_of(shape: Shape, words: &Words) -> anyhow::Result<Reply> {
    let reply = match shape {
        Shape::Go => Reply::Go,
        Shape::Value => Reply::Value(words.lines(0)?),
        Shape::Refused => Reply::Refused(words.lines(0)?),
        Shape::Found => Reply::Found(words.flag(0)?, words.lines(1)?),
        Shape::Posted => Reply::Posted(words.post(0)?),
        Shape::Waits => Reply::Waits(words.number(0)?),
        Shape::Answer => Reply::Answer(outcome(words)?),
        Shape::Died => Reply::Died,
        Shape::NoEvent | Shape::Event => Reply::NoEvent,
        Shape::Served => Reply::Served(words.flag(0)?),
        Shape::Line => Reply::Line(words.lines(0)?),
        Shape::LineEnd => Reply::LineEnd,
        Shape::Job => Reply::Job(words.post(0)?, words.lines(1)?, words.flag(2)?),
        Shape::JobStop => Reply::JobStop,
        Shape::Lists => Reply::Lists(words.lines(0)?, words.lines(1)?),
        Shape::Cancelled => Reply::Cancelled(words.flag(0)?),
    };
    Ok(reply)
}

fn event_of(happens: Happens, words: &Words) -> anyhow::Result<Event> {
    let event = match happens {
        Happens::Script => Event::Script {
            n: words.post(0)?,
            script: words.lines(1)?,
            answer: words.flag(2)?,
            plain: words.flag(3)?,
        },
        Happens::SetVar => Event::SetVar {
            name: words.lines(0)?,
            value: words.lines(1)?,
        },
        Happens::Moved => Event::Moved {
            chan: words.lines(0)?,
        },
        Happens::Timer => Event::Timer {
            n: words.post(0)?,
            script: words.lines(1)?,
        },
        Happens::Stop => Event::Stop,
    };
    Ok(event)
}

// A code, a value, a trace and a kept code.
fn outcome(words: &Words) -> anyhow::Result<Outcome> {
    Ok(Outcome {
        code: words.code(0, &CODES)?,
        value: Value::from_text(words.lines(1)?),
        trace: words.lines(2)?,
        kept: words.code(3, &CODES)?,
    })
}
