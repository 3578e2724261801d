ghost use Rattle.std.specs.Prelude.{◌≡◌, ◌++◌, IfOk, OnOk};
ghost use Rattle.std.specs.List.{flat_map};
ghost use Rattle.tt_ids.specs.Ids.{id};
ghost use Rattle.tt_ids.specs.declared.id.IdKind.TheVariants.{Thread};
ghost use Rattle.tt_reports.specs.WaitsText.{IsWaitsText, deadlock_line, for_whom, later_id, waits_line};
ghost use Rattle.tt_waits.specs.Waiting.{edges_from, edges_of};

use crate::Waiting;
use std::alloc::Global;
use tt_ids::{IdKind, id_text};
use tt_text::{NoMemory, Text};
use tt_waits::{Edge, caught};

/// The report of who waits for whom: a line for each of these threads, and then one with those that are caught in a
/// circle of waiting, if there are any.
///
/// `NoMemory` if memory for it is refused.
pub fn waits_text(alloc: Global, waiting: &[Waiting]) -> Result<Text, NoMemory>
    ensures text { IfOk result (λ text. IsWaitsText waiting.now text) }
{
    let edges = edges_of(alloc, waiting)?;
    let caught = caught(alloc, edges.as_slice())?;
    let mut text = Text::new(alloc);
    push_lines(alloc, &mut text, waiting)?;
    push_deadlock(alloc, &mut text, caught.as_slice())?;
    Ok(text)
}

/// The edges from each thread to those that it waits for.
fn edges_of(alloc: Global, waiting: &[Waiting]) -> Result<Vec<Edge>, NoMemory>
    ensures { IfOk result (λ edges. edges.items ≡ edges_of waiting.now) }
{
    let mut edges = Vec::new(alloc);
    for one in waiting {
        push_edges(&mut edges, one)?;
    }
    Ok(edges)
}

fn push_edges(edges: &mut Vec<Edge>, one: &Waiting) -> Result<(), NoMemory>
    ensures { OnOk result (edges.new.items ≡ edges.old.items ++ edges_from one.now) }
{
    for other in &one.others {
        edges.push(Edge {
            from: one.thread,
            to: *other,
        })?;
    }
    Ok(())
}

fn push_lines(alloc: Global, text: &mut Text, waiting: &[Waiting]) -> Result<(), NoMemory>
    ensures { OnOk result (text.new ≡ text.old ++ flat_map waits_line waiting.now) }
{
    for one in waiting {
        push_line(alloc, text, one)?;
    }
    Ok(())
}

fn push_line(alloc: Global, text: &mut Text, one: &Waiting) -> Result<(), NoMemory>
    ensures { OnOk result (text.new ≡ text.old ++ waits_line one.now) }
{
    push_id(alloc, text, one.thread)?;
    text.push_bytes(b" waits")?;
    push_others(alloc, text, one.others.as_slice())?;
    text.push_bytes(b"\n")?;
    Ok(())
}

fn push_others(alloc: Global, text: &mut Text, others: &[u32]) -> Result<(), NoMemory>
    ensures { OnOk result (text.new ≡ text.old ++ for_whom others.now) }
{
    if others.is_empty() {
        return Ok(());
    }
    text.push_bytes(b" for")?;
    push_later_ids(alloc, text, others)?;
    Ok(())
}

fn push_deadlock(alloc: Global, text: &mut Text, caught: &[u32]) -> Result<(), NoMemory>
    ensures { OnOk result (text.new ≡ text.old ++ deadlock_line caught.now) }
{
    if caught.is_empty() {
        return Ok(());
    }
    text.push_bytes(b"deadlock")?;
    push_later_ids(alloc, text, caught)?;
    text.push_bytes(b"\n")?;
    Ok(())
}

/// Each id, with the space before it.
fn push_later_ids(alloc: Global, text: &mut Text, threads: &[u32]) -> Result<(), NoMemory>
    ensures { OnOk result (text.new ≡ text.old ++ flat_map later_id threads.now) }
{
    for thread in threads {
        push_later_id(alloc, text, *thread)?;
    }
    Ok(())
}

fn push_later_id(alloc: Global, text: &mut Text, thread: u32) -> Result<(), NoMemory>
    ensures { OnOk result (text.new ≡ text.old ++ later_id thread) }
{
    text.push_bytes(b" ")?;
    push_id(alloc, text, thread)?;
    Ok(())
}

fn push_id(alloc: Global, text: &mut Text, thread: u32) -> Result<(), NoMemory>
    ensures { OnOk result (text.new ≡ text.old ++ id Thread thread) }
{
    let id = id_text(alloc, IdKind::Thread, u64::from(thread))?;
    text.push_bytes(id.as_bytes())?;
    Ok(())
}
