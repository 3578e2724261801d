//! The threads that wait, each at a place, and the marks that edges are between the places.
ghost use Rattle.std.specs.Prelude.{◌≡◌, ◌<◌, ℕ, List, IfOk, IfSome, IfNone, length, map, ◌⊎◌, ◌↔◌};
ghost use Rattle.std.specs.List.{Contains, All};
ghost use Rattle.std.specs.List.Sorted.{IsStrictlyIncreasing};
ghost use Rattle.tt_waits.specs.inside.Marks.{IsMarked};
ghost use Rattle.tt_waits.specs.inside.Places.{IsJoined, IsPlaceOf, Joins};

use crate::Edge;
use crate::rows::Rows;
use std::alloc::Global;
use tt_text::NoMemory;

/// The threads from which an edge leads, by number, each once. A thread from which none leads is in no circle.
///
/// `NoMemory` if memory for them is refused.
pub(crate) fn waiting_threads(alloc: Global, edges: &[Edge]) -> Result<Vec<u32>, NoMemory>
    ensures ascending { IfOk result (λ threads. IsStrictlyIncreasing threads.items) }
    ensures all { IfOk result (λ threads. All (λ edge. Contains threads.items edge.from) edges.now) }
{
    let mut threads = starts(alloc, edges)?;
    threads.sort_unstable();
    threads.dedup();
    Ok(threads)
}

/// The thread from which each edge leads.
fn starts(alloc: Global, edges: &[Edge]) -> Result<Vec<u32>, NoMemory>
    ensures { IfOk result (λ threads. threads.items ≡ map (λ edge. edge.from) edges.now) }
{
    let mut threads = Vec::new(alloc);
    for edge in edges {
        threads.push(edge.from)?;
    }
    Ok(threads)
}

/// The marks of the edges between waiting threads.
///
/// `NoMemory` if memory for them is refused.
pub(crate) fn marks_of(alloc: Global, threads: &[u32], edges: &[Edge]) -> Result<Rows, NoMemory>
    requires { IsStrictlyIncreasing threads.now }
    ensures count { IfOk result (λ rows. rows.count ≡ length threads.now) }
    ensures marks { IfOk result (λ rows. (i j : ℕ) →
        IsMarked rows i j ↔ IsJoined threads.now edges.now i j) }
{
    let mut rows = Rows::unmarked(alloc, threads.len())?;
    for edge in edges {
        mark_edge(&mut rows, threads, edge);
    }
    Ok(rows)
}

/// Marks an edge, if it is one between two threads that wait.
fn mark_edge(rows: &mut Rows, threads: &[u32], edge: &Edge)
    requires ascending { IsStrictlyIncreasing threads.now }
    requires count { rows.old.count ≡ length threads.now }
    ensures count { rows.new.count ≡ rows.old.count }
    ensures marks { (i j : ℕ) → IsMarked rows.new i j ↔ (IsMarked rows.old i j ⊎ Joins threads.now edge.now i j) }
{
    if let (Some(from), Some(to)) = (place_of(threads, edge.from), place_of(threads, edge.to)) {
        rows.mark(from, to);
    }
}

/// The place of a thread among those that wait.
fn place_of(threads: &[u32], thread: u32) -> Option<usize>
    requires { IsStrictlyIncreasing threads.now }
    ensures some { IfSome result (λ place. IsPlaceOf threads.now thread place) }
    ensures none { IfNone result ((place : ℕ) → ¬ (IsPlaceOf threads.now thread place)) }
{
    threads.binary_search(&thread).ok()
}
