//! Schedules: which thread takes each step of a run, as a list and as the text that stands in files.
#![tactic(auto)]

mod line;
mod printing;
mod reading;
mod run;
mod schedule;

pub use printing::{one_text, print};
pub use reading::{ReadSchedule, ScheduleFault, read};
pub use schedule::Schedule;
