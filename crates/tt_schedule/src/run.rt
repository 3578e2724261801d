ghost use Rattle.std.specs.Prelude.{◌≡◌, ◌++◌, ◌∷◌, [], ◌+◌, ◌<◌, ◌≤◌, ◌↔◌, IsTrue, length, vec_len, vec_capacity};
ghost use Rattle.std.specs.Prelude.{slice_index, OnOk, OnErr};
ghost use Rattle.tt_schedule.specs.inside.Runs.{lines_from, end_of, AreRuns, LastDiffers};
ghost use Rattle.tt_schedule.specs.ScheduleText.{IsLine, steps_of, most_steps};
ghost use Rattle.tt_ids.specs.ThreadNumbers.{IsInRange};

use crate::line::Line;
use tt_text::NoMemory;

/// The most steps of a schedule.
const MOST_STEPS: u32 = 16_777_216;

/// A row of steps of one thread. It begins where the run before it ends, and `end` is how many steps there are up to
/// its own end.
#[derive(Clone, Copy, Debug)]
pub(crate) struct Run {
    pub(crate) thread: u32,
    pub(crate) end: u32,
}

/// How many steps the runs have.
pub(crate) fn step_count(runs: &[Run]) -> u32
    ensures { result ≡ end_of 0 runs.now }
{
    match runs.split_last() {
        Some((last, _)) => last.end,
        None => 0,
    }
}

/// Whether the last run, if there is one, is of another thread.
fn last_differs(runs: &[Run], thread: u32) -> bool
    ensures { IsTrue result ↔ LastDiffers runs.now thread }
{
    match runs.split_last() {
        Some((last, _)) => last.thread != thread,
        None => true,
    }
}

/// Whether the line may follow the runs.
pub(crate) fn can_follow(runs: &[Run], line: Line) -> bool
    ensures { IsTrue result ↔ (LastDiffers runs.now line.thread × (end_of 0 runs.now + line.steps ≤ most_steps)) }
{
    let count = u64::from(step_count(runs)) + u64::from(line.steps);
    last_differs(runs, line.thread) && count <= u64::from(MOST_STEPS)
}

/// Adds the run of a line.
pub(crate) fn add_line(runs: &mut Vec<Run>, line: Line) -> Result<(), NoMemory>
    requires runs { AreRuns 0 runs.old.items }
    requires line { IsLine line }
    requires differs { LastDiffers runs.old.items line.thread }
    requires few { end_of 0 runs.old.items + line.steps ≤ most_steps }
    ensures runs { OnOk result (AreRuns 0 runs.new.items) }
    ensures lines { OnOk result (lines_from 0 runs.new.items ≡ lines_from 0 runs.old.items ++ line ∷ []) }
{
    let end = step_count(runs) + line.steps;
    let thread = line.thread;
    runs.push(Run { thread, end })?;
    Ok(())
}

/// Adds one step. It takes no memory.
pub(crate) fn add_step(runs: &mut Vec<Run>, thread: u32)
    requires runs { AreRuns 0 runs.old.items }
    requires thread { IsInRange thread }
    requires few { end_of 0 runs.old.items < most_steps }
    requires room { vec_len runs.old < vec_capacity runs.old }
    ensures runs { AreRuns 0 runs.new.items }
    ensures steps { steps_of (lines_from 0 runs.new.items) ≡ steps_of (lines_from 0 runs.old.items) ++ thread ∷ [] }
{
    let end = step_count(runs) + 1;
    let next = Run { thread, end };
    match runs.pop() {
        Some(last) if last.thread == thread => put(runs, next),
        Some(last) => {
            put(runs, last);
            put(runs, next);
        }
        None => put(runs, next),
    }
}

/// Puts a run at the end, in room that is there.
fn put(runs: &mut Vec<Run>, run: Run)
    requires { vec_len runs.old < vec_capacity runs.old }
    ensures added { runs.new.items ≡ runs.old.items ++ run ∷ [] }
    ensures capacity { vec_capacity runs.old ≤ vec_capacity runs.new }
{
    runs.push(run).unwrap();
}

/// The thread of the step at this place.
pub(crate) fn thread_at(runs: &[Run], place: u32) -> u32
    requires runs { AreRuns 0 runs.now }
    requires within { place < end_of 0 runs.now }
    ensures thread { result ≡ slice_index (steps_of (lines_from 0 runs.now)) place }
    ensures range { IsInRange result }
{
    let mut low = 0;
    let mut high = runs.len() - 1;
    while low < high {
        let middle = low + (high - low) / 2;
        if runs[middle].end <= place {
            low = middle + 1;
        } else {
            high = middle;
        }
    }
    runs[low].thread
}
