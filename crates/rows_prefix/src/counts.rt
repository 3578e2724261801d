use std::fmt;
use tt_session::{Place, Status};

/// How many texts end with which status.
#[derive(Clone, Copy)]
pub(crate) struct Counts {
    done: u32,
    failed: u32,
    exited: u32,
    stalled: u32,
    limited: u32,
    bad_texts: u32,
    bad_entries: u32,
    schedules_ended: u32,
}

impl Counts {
    /// No texts.
    pub(crate) fn new() -> Self {
        Counts {
            done: 0,
            failed: 0,
            exited: 0,
            stalled: 0,
            limited: 0,
            bad_texts: 0,
            bad_entries: 0,
            schedules_ended: 0,
        }
    }

    /// How many texts there are.
    pub(crate) fn total(&self) -> u32 {
        [
            self.done,
            self.failed,
            self.exited,
            self.stalled,
            self.limited,
            self.bad_texts,
            self.bad_entries,
            self.schedules_ended,
        ]
        .iter()
        .fold(0u32, |total, count| total.saturating_add(*count))
    }

    /// Adds a text that ended so.
    ///
    /// An error if that is the status of no text: there is enough memory, no device fails, and no file is missing.
    pub(crate) fn add(&mut self, status: &Status) -> anyhow::Result<()> {
        let count = match status {
            Status::Done(0) => &mut self.done,
            Status::Done(1) => &mut self.failed,
            Status::Done(_) => &mut self.exited,
            Status::Stalled => &mut self.stalled,
            Status::StepLimit(_) => &mut self.limited,
            Status::BadSchedule(Place::Byte(_)) => &mut self.bad_texts,
            Status::BadSchedule(Place::Entry(_)) => &mut self.bad_entries,
            Status::ScheduleEnded => &mut self.schedules_ended,
            _ => anyhow::bail!("a status of no text"),
        };
        *count = count.saturating_add(1);
        Ok(())
    }
}

impl fmt::Display for Counts {
    fn fmt<W: fmt::Write>(&self, f: &mut fmt::Formatter<W>) -> fmt::Result {
        write!(
            f,
            "{} exit with 0, {} with 1, {} with another code; {} stall, {} reach the limit; {} are no schedule, {} \
             have a bad entry, {} end",
            self.done,
            self.failed,
            self.exited,
            self.stalled,
            self.limited,
            self.bad_texts,
            self.bad_entries,
            self.schedules_ended
        )
    }
}
