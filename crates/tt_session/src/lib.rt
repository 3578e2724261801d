//! A call of the program over any files and streams: what its words ask for, the run, the schedule that is recorded,
//! and the line that reports how it ended.
#![tactic(auto)]

mod along;
mod debugging;
mod ended;
mod given_words;
pub mod laws;
mod line;
mod on_workers;
mod prepare;
mod recording;
mod reporting;
mod run;
mod status;
mod telling;
mod without_workers;

pub use ended::{Alone, Ended, Finish};
pub use given_words::program_words;
pub use line::put_status;
pub use on_workers::session;
pub use prepare::prepare_plain;
pub use recording::close;
pub use run::{Course, run_course};
pub use status::{End, Place, Refusal, Status};
pub use without_workers::{alone, refuse};
