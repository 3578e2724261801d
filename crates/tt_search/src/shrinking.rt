ghost use Rattle.std.specs.Prelude.{◌≤◌};
ghost use Rattle.tt_schedule.specs.ScheduleText.{most_steps};

use crate::begun::Trial;
use crate::hunt::Hunt;
use crate::judging::{is_find, is_out_of_memory};
use crate::rows::{Row, rows_of, schedule_of, switch_count, with_next_joined, without_row};
use std::alloc::Global;
use tt_schedule::Schedule;
use tt_session::{Course, Finish};
use tt_text::NoMemory;

/// The most runs that are made to make a find small.
const MOST_TRIES: u32 = 500;

/// How often all ways of making it small are tried.
const PASSES: u32 = 3;

/// By how little a schedule is cut: by one row of 2 to this power.
const MOST_PARTS: u32 = 20;

/// A find that is made small: shorter schedules, and such with fewer switches, are tried, and kept if the run ends the
/// same way.
#[derive(Drop)]
pub(crate) struct Shrunk {
    pub(crate) trial: Trial,
    tries: u32,
}

impl Shrunk {
    /// A find before it is made small.
    pub(crate) fn new(trial: Trial) -> Self {
        Shrunk { trial, tries: 0 }
    }

    /// Makes it small: its schedule is cut as far as that goes, rows are joined, and rows are left out. What comes after
    /// a schedule that was cut is the rest of the last thread, and then the threads in turn.
    ///
    /// `NoMemory` if memory is refused.
    pub(crate) fn shrink(&mut self, alloc: Global, hunt: &Hunt<'_>) -> Result<(), NoMemory>
        requires { hunt.now.steps ≤ most_steps }
    {
        for _ in 0..PASSES {
            self.cut(alloc, hunt)?;
            self.join_rows(alloc, hunt)?;
            self.leave_out_rows(alloc, hunt)?;
        }
        Ok(())
    }

    /// Cuts the schedule: to a half, then by a quarter, and so on.
    fn cut(&mut self, alloc: Global, hunt: &Hunt<'_>) -> Result<(), NoMemory>
        requires { hunt.now.steps ≤ most_steps }
    {
        for part in 1..MOST_PARTS {
            let rows = rows_of(alloc, &self.trial.schedule)?;
            let less = rows.len() >> part;
            let kept = rows.len() - less;
            if less > 0 {
                self.try_rows(alloc, hunt, &rows.as_slice()[..kept])?;
            }
        }
        Ok(())
    }

    /// Joins rows with the next ones of the same thread.
    fn join_rows(&mut self, alloc: Global, hunt: &Hunt<'_>) -> Result<(), NoMemory>
        requires { hunt.now.steps ≤ most_steps }
    {
        for place in 0..MOST_TRIES as usize {
            let rows = rows_of(alloc, &self.trial.schedule)?;
            if let Some(joined) = with_next_joined(alloc, rows.as_slice(), place)? {
                self.try_rows(alloc, hunt, joined.as_slice())?;
            }
        }
        Ok(())
    }

    /// Leaves rows out, from the first on.
    fn leave_out_rows(&mut self, alloc: Global, hunt: &Hunt<'_>) -> Result<(), NoMemory>
        requires { hunt.now.steps ≤ most_steps }
    {
        for place in 0..MOST_TRIES as usize {
            let rows = rows_of(alloc, &self.trial.schedule)?;
            if place < rows.len() {
                let others = without_row(alloc, rows.as_slice(), place)?;
                self.try_rows(alloc, hunt, others.as_slice())?;
            }
        }
        Ok(())
    }

    /// Its schedule.
    pub(crate) fn into_schedule(self) -> Schedule {
        let Shrunk { trial, tries: _ } = self;
        let Finish {
            end: _,
            schedule,
            input: _,
            output: _,
            errors: _,
        } = trial;
        schedule
    }

    /// Runs along these rows, and takes that run if it is a smaller find that ends the same way. Whether it does.
    fn try_rows(&mut self, alloc: Global, hunt: &Hunt<'_>, rows: &[Row]) -> Result<bool, NoMemory>
        requires { hunt.now.steps ≤ most_steps }
    {
        if self.tries >= MOST_TRIES {
            return Ok(false);
        }
        self.tries += 1;
        let course = Course::Along(schedule_of(alloc, rows)?, hunt.steps);
        let trial = hunt.begun.trial(alloc, &course)?;
        if is_out_of_memory(&trial) {
            return Err(NoMemory);
        }
        let is_better = trial.end == self.trial.end
            && is_find(hunt.in_turn, &trial, hunt.difference)
            && is_smaller(&trial, &self.trial);
        if is_better {
            self.trial = trial;
        }
        Ok(is_better)
    }
}

/// Whether a run has fewer switches than another, or as many and fewer steps.
fn is_smaller(one: &Trial, other: &Trial) -> bool {
    let switches = switch_count(&one.schedule);
    let most = switch_count(&other.schedule);
    switches < most || switches == most && one.schedule.len() < other.schedule.len()
}
