//! Rows of texts of schedules.
//!
//! `\n` is a newline in a text, and `''` the empty text. It says the thread of each step, or `none` if there are no
//! steps, or `wrong at N`, the place of its first wrong line in bytes. What is read is also printed again.

use std::alloc::{AllocError, Global};
use tt_schedule::{ReadSchedule, Schedule, print, read};

/// What the text says.
pub(crate) fn answer(alloc: Global, row: &str) -> anyhow::Result<String> {
    let row = if row == "''" { "" } else { row };
    let text = row.replace(alloc, "\\n", "\n")?;
    let answer = match read(alloc, text.as_bytes())? {
        ReadSchedule::Bad(fault) => format!(in alloc; "wrong at {}", fault.place)?,
        ReadSchedule::Read(schedule) => {
            let again = print(alloc, &schedule)?;
            anyhow::ensure!(again.as_bytes() == text.as_bytes(), "printed otherwise");
            threads(alloc, &schedule)?
        }
    };
    Ok(answer)
}

/// The thread of each step, parted by spaces.
fn threads(alloc: Global, schedule: &Schedule) -> Result<String, AllocError> {
    let mut threads = String::new(alloc);
    for place in 0..schedule.len() {
        if place > 0 {
            threads.push_str(" ")?;
        }
        let thread = format!(in alloc; "{}", schedule.at(place))?;
        threads.push_str(thread.as_str())?;
    }
    if threads.is_empty() {
        threads.push_str("none")?;
    }
    Ok(threads)
}
