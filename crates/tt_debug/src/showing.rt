ghost use Rattle.std.specs.Prelude.{◌≡◌, ◌++◌, IfOk, OnOk};
ghost use Rattle.std.specs.Fmt.{decimal};
ghost use Rattle.std.specs.Option.{option_copied};
ghost use Rattle.tt_debug.specs.Lines.{array_shown, bytes_shown, event_lines, event_text, events_shown, line, list_shown};
ghost use Rattle.tt_debug.specs.Lines.{place_line, queue_shown, unknown_line};

use std::alloc::Global;
use tt_calls::Event;
use tt_ids::number_text;
use tt_queue::Queue;
use tt_shared::Shared;
use tt_text::{NoMemory, Text};

/// The place after a move.
///
/// `NoMemory` if memory for the line is refused, as for the others here.
pub(crate) fn place_line(alloc: Global, place: u64) -> Result<Text, NoMemory>
    ensures line { IfOk result (λ text. text ≡ place_line place) }
{
    let mut text = Text::from_bytes(alloc, b"at ")?;
    push_number(alloc, place, &mut text)?;
    text.push_bytes(b"\n")?;
    Ok(text)
}

/// How many bytes were written on standard output and on standard error.
pub(crate) fn bytes_line(alloc: Global, out: u64, err: u64) -> Result<Text, NoMemory>
    ensures line { IfOk result (λ text. text ≡ bytes_shown out err) }
{
    let mut text = Text::from_bytes(alloc, b"out ")?;
    push_number(alloc, out, &mut text)?;
    text.push_bytes(b" err ")?;
    push_number(alloc, err, &mut text)?;
    text.push_bytes(b"\n")?;
    Ok(text)
}

/// That a line is no command.
pub(crate) fn unknown_line(alloc: Global) -> Result<Text, NoMemory>
    ensures line { IfOk result (λ text. text ≡ unknown_line) }
{
    let text = Text::from_bytes(alloc, b"unknown command\n")?;
    Ok(text)
}

/// A shared array as a list.
pub(crate) fn array_line(alloc: Global, shared: &Shared, name: &[u8]) -> Result<Text, NoMemory>
    ensures line { IfOk result (λ text. text ≡ array_shown shared.now name.now) }
{
    let text = list_line(alloc, shared.array_text(name)?)?;
    Ok(text)
}

fn list_line(alloc: Global, list: Option<Text>) -> Result<Text, NoMemory>
    ensures { IfOk result (λ text. text ≡ list_shown list) }
{
    match list {
        Some(mut text) => {
            text.push_bytes(b"\n")?;
            Ok(text)
        }
        None => {
            let text = Text::from_bytes(alloc, b"no array\n")?;
            Ok(text)
        }
    }
}

/// The queue of a thread that lives.
pub(crate) fn queue_lines(
    alloc: Global,
    shared: &Shared,
    thread: Option<u32>,
) -> Result<Text, NoMemory>
    ensures lines { IfOk result (λ text. text ≡ queue_shown shared.now thread) }
{
    let Some(thread) = thread else {
        return Ok(Text::new(alloc));
    };
    if !shared.lives(thread) {
        return Ok(Text::new(alloc));
    }
    let text = events_text(alloc, shared.queue_of(thread))?;
    Ok(text)
}

fn events_text(alloc: Global, queue: Option<&Queue>) -> Result<Text, NoMemory>
    ensures { IfOk result (λ text. text ≡ events_shown (option_copied queue.entry)) }
{
    match queue {
        Some(queue) => {
            let text = event_lines(alloc, queue)?;
            Ok(text)
        }
        None => Ok(Text::new(alloc)),
    }
}

fn event_lines(alloc: Global, queue: &Queue) -> Result<Text, NoMemory>
    ensures { IfOk result (λ text. text ≡ event_lines queue.now) }
{
    let mut text = Text::new(alloc);
    for place in 0..queue.len() {
        push_event(alloc, queue.at(place), &mut text)?;
    }
    Ok(text)
}

fn push_event(alloc: Global, event: &Event, text: &mut Text) -> Result<(), NoMemory>
    ensures { OnOk result (text.new ≡ text.old ++ line (event_text event.now)) }
{
    match event {
        Event::Script { n, .. } => push_numbered(alloc, b"Script ", *n, text),
        Event::SetVar { name, .. } => push_named(b"SetVar ", name, text),
        Event::Moved { chan } => push_named(b"Moved ", chan, text),
        Event::Timer { n, .. } => push_numbered(alloc, b"Timer ", *n, text),
        Event::Stop => push_word(b"Stop", text),
    }
}

fn push_numbered(alloc: Global, word: &[u8], number: u64, text: &mut Text) -> Result<(), NoMemory>
    ensures { OnOk result (text.new ≡ text.old ++ line (word.now ++ decimal number)) }
{
    text.push_bytes(word)?;
    push_number(alloc, number, text)?;
    text.push_bytes(b"\n")?;
    Ok(())
}

fn push_named(word: &[u8], name: &Text, text: &mut Text) -> Result<(), NoMemory>
    ensures { OnOk result (text.new ≡ text.old ++ line (word.now ++ name.now)) }
{
    text.push_bytes(word)?;
    text.push_bytes(name.as_bytes())?;
    text.push_bytes(b"\n")?;
    Ok(())
}

fn push_word(word: &[u8], text: &mut Text) -> Result<(), NoMemory>
    ensures { OnOk result (text.new ≡ text.old ++ line word.now) }
{
    text.push_bytes(word)?;
    text.push_bytes(b"\n")?;
    Ok(())
}

fn push_number(alloc: Global, number: u64, text: &mut Text) -> Result<(), NoMemory>
    ensures { OnOk result (text.new ≡ text.old ++ decimal number) }
{
    let digits = number_text(alloc, number)?;
    text.push_bytes(digits.as_bytes())?;
    Ok(())
}
