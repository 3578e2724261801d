ghost use Rattle.std.specs.Prelude.{◌≡◌, ◌++◌, None, IfOk, OnOk, Option, option_to_list};
ghost use Rattle.tt_core.specs.Stage.{OfMachine};
ghost use Rattle.tt_machine.specs.Waiting.{AreWaiting};
ghost use Rattle.tt_waiting.specs.Report.{IsWaitsReport};
ghost use Rattle.tt_waiting.specs.inside.One.{IsOneWaiting};
ghost use Rattle.tt_waits.specs.Waiting.{Waiting as AnyWaiting};

use std::alloc::Global;
use tt_core::System;
use tt_devices::{Sink, Source};
use tt_reports::{Waiting, waits_text};
use tt_text::{NoMemory, Text};

/// The report of who waits for whom: a line for each living thread whose request can't be answered, and one with the
/// threads that are caught in a circle of waiting.
///
/// `NoMemory` if memory for it is refused.
pub fn waits_report<S: Source, K: Sink, E: Sink>(
    alloc: Global,
    system: &System<S, K, E>,
) -> Result<Text, NoMemory>
    ensures report { IfOk result (λ text. system.now.desk.kept ≡ None →
        OfMachine S.held system.now (IsWaitsReport text)) }
{
    let waiting = waiting_of(alloc, system)?;
    let text = waits_text(alloc, waiting.as_slice())?;
    Ok(text)
}

/// The threads that wait, by number; none if the run is over.
fn waiting_of<S: Source, K: Sink, E: Sink>(
    alloc: Global,
    system: &System<S, K, E>,
) -> Result<Vec<Waiting>, NoMemory>
    ensures are { IfOk result (λ waiting. system.now.desk.kept ≡ None →
        OfMachine S.held system.now (λ machine. AreWaiting machine waiting.items)) }
{
    if system.ended().is_some() {
        return Ok(Vec::new(alloc));
    }
    let waiting = all_waiting(alloc, system)?;
    Ok(waiting)
}

fn all_waiting<S: Source, K: Sink, E: Sink>(
    alloc: Global,
    system: &System<S, K, E>,
) -> Result<Vec<Waiting>, NoMemory>
    requires not_over { system.now.desk.kept ≡ None →
        OfMachine S.held system.now (λ machine. machine.shared.over ≡ None) }
    ensures are { IfOk result (λ waiting. system.now.desk.kept ≡ None →
        OfMachine S.held system.now (λ machine. AreWaiting machine waiting.items)) }
{
    let mut waiting = Vec::new(alloc);
    let count = system.shared().thread_count();
    for before in 0..count {
        push_waiting(system, before + 1, &mut waiting)?;
    }
    Ok(waiting)
}

/// Adds a thread, if it has to wait.
fn push_waiting<S: Source, K: Sink, E: Sink>(
    system: &System<S, K, E>,
    number: u32,
    waiting: &mut Vec<Waiting>,
) -> Result<(), NoMemory>
    requires not_over { system.now.desk.kept ≡ None →
        OfMachine S.held system.now (λ machine. machine.shared.over ≡ None) }
    ensures pushed { OnOk result ((last : Option AnyWaiting)
        × (waiting.new.items ≡ waiting.old.items ++ option_to_list last)
        × (system.now.desk.kept ≡ None → OfMachine S.held system.now (IsOneWaiting number last))) }
{
    let Some(one) = one_waiting(system, number)? else {
        return Ok(());
    };
    waiting.push(one)?;
    Ok(())
}

/// A thread with those that it waits for; `None` if it hasn't to wait.
fn one_waiting<S: Source, K: Sink, E: Sink>(
    system: &System<S, K, E>,
    number: u32,
) -> Result<Option<Waiting>, NoMemory>
    requires not_over { system.now.desk.kept ≡ None →
        OfMachine S.held system.now (λ machine. machine.shared.over ≡ None) }
    ensures is { IfOk result (λ last. system.now.desk.kept ≡ None →
        OfMachine S.held system.now (IsOneWaiting number last)) }
{
    if !system.shared().lives(number) {
        return Ok(None);
    }
    let Some(request) = system.request(number) else {
        return Ok(None);
    };
    if system.enabled(number) {
        return Ok(None);
    }
    let others = system.shared().blockers(number, request)?;
    Ok(Some(Waiting {
        thread: number,
        others,
    }))
}
