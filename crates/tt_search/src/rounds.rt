ghost use Rattle.std.specs.Prelude.{◌≤◌, ◌<◌};
ghost use Rattle.tt_schedule.specs.ScheduleText.{most_steps};

use crate::hunt::{Find, Hunt, Share};
use std::alloc::Global;
use std::thread;
use std::thread::Threads;
use tt_text::NoMemory;

/// What a round of runs came to.
#[derive(Drop)]
pub(crate) struct Round {
    /// The numbers of its runs that came to their most steps.
    pub(crate) cut: Vec<u64>,
    /// How many steps its runs took.
    pub(crate) steps: u64,
    /// The find with the least number.
    pub(crate) find: Option<Find>,
}

/// The runs from a number up to an end, on so many workers. The find is the same for each number of workers.
///
/// `NoMemory` if memory is refused in one of them.
pub(crate) fn run_round<R: Threads + Sync>(
    rt: &R,
    alloc: Global,
    hunt: &Hunt<'_>,
    workers: u32,
    start: u64,
    end: u64,
) -> Result<Round, NoMemory>
    requires workers { 0 < workers }
    requires steps { hunt.now.steps ≤ most_steps }
{
    let stride = u64::from(workers);
    let shares = thread::map_indices(
        rt,
        alloc,
        workers as usize,
        &|worker: usize| { hunt.share(alloc, start.saturating_add(worker as u64), stride, end) },
    )?;
    joined(alloc, shares)
}

/// What the parts of a round came to together.
fn joined(alloc: Global, shares: Vec<Result<Share, NoMemory>>) -> Result<Round, NoMemory> {
    let mut cut = Vec::new(alloc);
    let mut steps = 0u64;
    let mut find = None;
    for share in shares {
        let Share {
            cut: these,
            steps: more,
            find: other,
        } = share?;
        steps = steps.saturating_add(more);
        cut.extend_from_slice(these.as_slice())?;
        find = earlier(find, other);
    }
    Ok(Round { cut, steps, find })
}

/// The one with the lesser number of two finds, if there is one.
fn earlier(one: Option<Find>, other: Option<Find>) -> Option<Find> {
    match (one, other) {
        (Some(one), Some(other)) => {
            if one.run <= other.run {
                Some(one)
            } else {
                Some(other)
            }
        }
        (Some(one), None) => Some(one),
        (None, other) => other,
    }
}
