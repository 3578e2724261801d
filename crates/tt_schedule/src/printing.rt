ghost use Rattle.std.specs.Prelude.{◌≡◌, ◌++◌, IfOk, OnOk};
ghost use Rattle.tt_schedule.specs.inside.Runs.{lines_from, AreRuns};
ghost use Rattle.tt_schedule.specs.ScheduleText.{IsScheduleText, OneListLaw, OnePlaceLaw, OneTextLaw, heading};
ghost use Rattle.tt_schedule.specs.ScheduleText.{line_text};
ghost use Rattle.std.specs.List.{flat_map};

use crate::line::Line;
use crate::reading::HEADING;
use crate::run::Run;
use crate::schedule::Schedule;
use std::alloc::Global;
use tt_text::{NoMemory, Text};

/// The text of the schedule, which `read` reads as the same list.
///
/// `NoMemory` if memory for it is refused.
pub fn print(alloc: Global, schedule: &Schedule) -> Result<Text, NoMemory>
    ensures { IfOk result (λ text. IsScheduleText text schedule.now.threads) }
{
    let mut text = Text::from_bytes(alloc, HEADING)?;
    push_runs(alloc, &mut text, &schedule.runs)?;
    Ok(text)
}

/// Adds the line of each run.
fn push_runs(alloc: Global, text: &mut Text, runs: &[Run]) -> Result<(), NoMemory>
    requires { AreRuns 0 runs.now }
    ensures { OnOk result (text.new ≡ text.old ++ flat_map line_text (lines_from 0 runs.now)) }
{
    let mut start = 0;
    for run in runs {
        let steps = run.end - start;
        let thread = run.thread;
        push_line(alloc, text, Line { thread, steps })?;
        start = run.end;
    }
    Ok(())
}

/// Adds a line.
fn push_line(alloc: Global, text: &mut Text, line: Line) -> Result<(), NoMemory>
    ensures { OnOk result (text.new ≡ text.old ++ line_text line) }
{
    let thread = line.thread;
    let steps = line.steps;
    let line = format!(in alloc; "{thread} {steps}\n")?;
    text.push_bytes(line.as_bytes())
}

/// A text is that of one list, a list of thread numbers has one text, and a text has one first wrong line. So what
/// `print` makes reads as that list, a text that reads as a list is what `print` makes of it, and `read` names the one
/// place that is wrong.
pub fn one_text()
    ensures one_list { OneListLaw }
    ensures one_text { OneTextLaw }
    ensures one_place { OnePlaceLaw }
{}
