ghost use Rattle.std.specs.Prelude.{◌≡◌, ◌≢◌, ◌≤◌, ℕ, List, length, IfOk};
ghost use Rattle.tt_schedule.specs.Reading.{IsRead};
ghost use Rattle.tt_schedule.specs.inside.LineReading.{ReadsLines};

use crate::line::line_at;
use crate::run::{Run, add_line, can_follow};
use crate::schedule::Schedule;
use std::alloc::Global;
use tt_text::NoMemory;

/// The first line of every schedule's text.
pub(crate) const HEADING: &[u8] = b"schedule 1\n";

/// If a text stops being a schedule's: the offset of its first wrong line, in bytes.
#[derive(Clone, Copy, Debug, PartialEq, Eq)]
pub struct ScheduleFault {
    /// The offset, in bytes.
    pub place: u64,
}

/// What a text says.
#[derive(Debug, Drop)]
pub enum ReadSchedule {
    /// It is the text of this schedule.
    Read(Schedule),
    /// It is no schedule's text.
    Bad(ScheduleFault),
}

/// What lines say.
#[derive(Drop)]
enum ReadLines {
    Good(Vec<Run>),
    Wrong { left: usize },
}

/// Reads the text of a schedule: the line `schedule 1`, and then a line `THREAD STEPS` for each row of steps that one
/// thread takes. The numbers are decimal, from 1 to 16,777,216, without leading zeros; each line ends with a newline;
/// neighbouring lines are of different threads; and there are at most 16,777,216 steps.
///
/// `Bad` exactly if the text isn't so, with its first wrong line. `NoMemory` if memory for the schedule is refused.
pub fn read(alloc: Global, text: &[u8]) -> Result<ReadSchedule, NoMemory>
    ensures exact { IfOk result (IsRead text.now) }
{
    let Some(lines) = text.strip_prefix(HEADING) else {
        let fault = ScheduleFault { place: 0 };
        return Ok(ReadSchedule::Bad(fault));
    };
    match read_lines(alloc, lines)? {
        ReadLines::Good(runs) => Ok(ReadSchedule::Read(Schedule { runs })),
        ReadLines::Wrong { left } => {
            let place = (text.len() - left) as u64;
            Ok(ReadSchedule::Bad(ScheduleFault { place }))
        }
    }
}

/// Reads the lines after the first, up to the first that is wrong.
fn read_lines(alloc: Global, text: &[u8]) -> Result<ReadLines, NoMemory>
    ensures exact { IfOk result (ReadsLines text.now) }
{
    let mut runs = Vec::new(alloc);
    let mut rest = text;
    while !rest.is_empty() {
        let wrong = ReadLines::Wrong { left: rest.len() };
        let Some((line, after)) = line_at(rest) else {
            return Ok(wrong);
        };
        if !can_follow(&runs, line) {
            return Ok(wrong);
        }
        add_line(&mut runs, line)?;
        rest = after;
    }
    Ok(ReadLines::Good(runs))
}
