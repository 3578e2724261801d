ghost use Rattle.std.specs.Prelude.{◌≡◌, ◌<◌, ℕ, IfOk, length, ◌↔◌};
ghost use Rattle.std.specs.List.Sorted.{IsStrictlyIncreasing};
ghost use Rattle.tt_waits.specs.Walks.{AreTheCaught};
ghost use Rattle.tt_waits.specs.inside.Places.{AreOnDiagonal};

use crate::closing::close;
use crate::rows::Rows;
use crate::threads::{marks_of, waiting_threads};
use std::alloc::Global;
use tt_text::NoMemory;

/// The thread `from` waits for the thread `to`, which may be itself.
#[derive(Clone, Copy, Debug, PartialEq, Eq)]
pub struct Edge {
    pub from: u32,
    pub to: u32,
}

/// The threads from which a walk of one or more edges leads back to themselves, by number, each once. An edge may be
/// given more than once.
///
/// `NoMemory` if memory is refused.
pub fn caught(alloc: Global, edges: &[Edge]) -> Result<Vec<u32>, NoMemory>
    ensures { IfOk result (λ threads. AreTheCaught edges.now threads.items) }
{
    let threads = waiting_threads(alloc, edges)?;
    let mut rows = marks_of(alloc, threads.as_slice(), edges)?;
    close(&mut rows);
    on_diagonal(alloc, threads.as_slice(), &rows)
}

/// The threads whose places are marked at themselves.
fn on_diagonal(alloc: Global, threads: &[u32], rows: &Rows) -> Result<Vec<u32>, NoMemory>
    requires ascending { IsStrictlyIncreasing threads.now }
    requires count { rows.now.count ≡ length threads.now }
    ensures { IfOk result (λ found. AreOnDiagonal threads.now rows.now (length threads.now) found.items) }
{
    let mut found = Vec::new(alloc);
    for place in 0..rows.count {
        if rows.is_marked(place, place) {
            found.push(threads[place])?;
        }
    }
    Ok(found)
}
