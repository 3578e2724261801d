//! Texts that are cut off or changed, as scripts and as schedules: how many there are, and, on standard error, how many
//! of them end with which status. Any other end than a status of such a run is an error.
//!
//! The words are names of files. One that ends with `.schedule` is a schedule of the script before it; any other is a
//! script, whose threads take their steps in turn. Of each text these are tried:
//!
//! - its beginnings, from the empty one to the whole text;
//! - at every seventh place: the text without that byte, with that byte twice, and with each of eleven bytes in its
//!   place that mean something to Tcl or are rare.
#![tactic(auto)]

mod changes;
mod counts;
mod subject;

use changes::try_all;
use std::{env, fs};
use subject::Subject;

fn main(rt: HostRuntime) -> anyhow::Result<()> {
    let mut script = Vec::new(rt.alloc());
    let mut words = env::args(&rt)?;
    let _name = words.next();
    for word in words {
        let text = fs::read(&rt, word.as_str())?;
        let is_schedule = word.as_str().ends_with(".schedule");
        let subject = if is_schedule {
            Subject::ScheduleOf(&script)
        } else {
            Subject::Script
        };
        let counts = try_all(rt.alloc(), &subject, &text)?;
        println!(rt;
            "{word}: each of {} texts ends with a status",
            counts.total()
        )?;
        eprintln!(rt; "{word}: {counts}")?;
        if !is_schedule {
            script = text;
        }
    }
    Ok(())
}
