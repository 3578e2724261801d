//! How the steps of a schedule lie, in both extremes.
ghost use Rattle.tt_ids.specs.ThreadNumbers.{IsInRange};

use std::alloc::Global;

/// The most steps of a schedule.
pub(crate) const MOST_STEPS: u32 = 16_777_216;

/// Which thread takes which step.
#[derive(Clone, Copy)]
pub(crate) enum Shape {
    /// Thread 1 takes them all: one row.
    OneRow,
    /// Threads 1 and 2 take them in turn: as many rows as steps.
    Turns,
}

impl Shape {
    /// The thread that takes the step at this place.
    pub(crate) fn thread(self, place: u32) -> u32
        ensures { IsInRange result }
    {
        match self {
            Shape::OneRow => 1,
            Shape::Turns => 1 + place % 2,
        }
    }

    /// The text of a schedule of so many steps.
    pub(crate) fn text(self, alloc: Global, steps: u32) -> anyhow::Result<Vec<u8>> {
        let mut text = Vec::from_slice(alloc, b"schedule 1\n")?;
        match self {
            Shape::OneRow => {
                let line = format!(in alloc; "1 {steps}\n")?;
                text.extend_from_slice(line.as_bytes())?;
            }
            Shape::Turns => {
                for _ in 0..steps / 2 {
                    text.extend_from_slice(b"1 1\n2 1\n")?;
                }
            }
        }
        Ok(text)
    }
}
