ghost use Rattle.std.specs.Prelude.{◌≡◌, ◌++◌, ℕ, None, List, IfOk, OnOk};
ghost use Rattle.tt_core.specs.Stage.{OfMachine};
ghost use Rattle.tt_debug.specs.Lines.{standing_word, thread_line};
ghost use Rattle.tt_debug.specs.Shown.{AreThreads, IsLineOf};

use crate::names::name_of;
use std::alloc::Global;
use tt_calls::Request;
use tt_core::System;
use tt_devices::{Sink, Source};
use tt_ids::{IdKind, id_text};
use tt_text::{NoMemory, Text};

/// The threads that live, each with whether its request is enabled; none if the run is over.
///
/// `NoMemory` if memory for the lines is refused.
pub(crate) fn threads_text<S: Source, K: Sink, E: Sink>(
    alloc: Global,
    system: &System<S, K, E>,
) -> Result<Text, NoMemory>
    requires going { system.now.desk.kept ≡ None }
    ensures threads { IfOk result (λ text. OfMachine S.held system.now
        (λ machine. AreThreads machine.shared.over machine text)) }
{
    if system.ended().is_some() {
        return Ok(Text::new(alloc));
    }
    let text = living_threads(alloc, system)?;
    Ok(text)
}

fn living_threads<S: Source, K: Sink, E: Sink>(
    alloc: Global,
    system: &System<S, K, E>,
) -> Result<Text, NoMemory>
    requires going { system.now.desk.kept ≡ None }
    requires not_over { OfMachine S.held system.now (λ machine. machine.shared.over ≡ None) }
    ensures threads { IfOk result (λ text. OfMachine S.held system.now
        (λ machine. AreThreads machine.shared.over machine text)) }
{
    let mut text = Text::new(alloc);
    let count = system.shared().thread_count();
    for before in 0..count {
        push_thread(alloc, system, before + 1, &mut text)?;
    }
    Ok(text)
}

/// Adds the line of a thread, if it lives.
fn push_thread<S: Source, K: Sink, E: Sink>(
    alloc: Global,
    system: &System<S, K, E>,
    number: u32,
    text: &mut Text,
) -> Result<(), NoMemory>
    requires going { system.now.desk.kept ≡ None }
    requires not_over { OfMachine S.held system.now (λ machine. machine.shared.over ≡ None) }
    ensures pushed { OnOk result ((last : List ℕ) × (text.new ≡ text.old ++ last)
        × OfMachine S.held system.now (λ machine. IsLineOf machine number last)) }
{
    let Some(request) = system.request(number) else {
        return Ok(());
    };
    push_line(alloc, number, system.enabled(number), request, text)?;
    Ok(())
}

fn push_line(
    alloc: Global,
    number: u32,
    enabled: bool,
    request: &Request,
    text: &mut Text,
) -> Result<(), NoMemory>
    ensures pushed { OnOk result (text.new ≡ text.old ++ thread_line number enabled request.now) }
{
    let id = id_text(alloc, IdKind::Thread, u64::from(number))?;
    text.push_bytes(id.as_bytes())?;
    text.push_bytes(standing_word(enabled))?;
    text.push_bytes(name_of(request))?;
    text.push_bytes(b"\n")?;
    Ok(())
}

fn standing_word(enabled: bool) -> &'static [u8]
    ensures { result.now ≡ standing_word enabled }
{
    if enabled { b" enabled " } else { b" waits " }
}
