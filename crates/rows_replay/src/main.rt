//! Tables of runs of whole scripts, with their threads: what a run writes and how it ends (thread(n), Tcl(n)). They
//! stand in the files of `data/`, and this says how many rows hold, and shows those that don't.
//!
//! A row begins with `== ` and its name. The lines after it are the script, and then come what the run begins with,
//! what it writes, and how it ends:
//!
//! - `%% arguments LIST`: the script's arguments; without this line there are none.
//! - `%% input TEXT`: standard input, where `\n` stands for a newline; without this line it is empty.
//! - `%% limit N`: how many units each thread may spend.
//! - `%% fails DEVICE N`: the Nth call of `input`, `output` or `errors` fails.
//! - `%% schedule T N ...`: thread T takes its next N steps, and so on; without this line threads that can take a step
//!   do so in turn, by number.
//! - `> LINE`: a line of standard output, and `! LINE` one of standard error; `>- TEXT` and `!- TEXT` are texts that no
//!   newline follows.
//! - `= END`: how the run ends, in the words of `run`.
#![tactic(auto)]

mod row;
mod run;
mod settings;
mod table;

use row::Row;
use rows_reader::{Tally, tell_table};
use std::fs;

const TABLES: [&str; 21] = [
    "worked.rows",
    "events.rows",
    "sends.rows",
    "results.rows",
    "marks.rows",
    "reports.rows",
    "ends.rows",
    "counts.rows",
    "streams.rows",
    "arrays.rows",
    "held.rows",
    "locks.rows",
    "pools.rows",
    "channels.rows",
    "scripts.rows",
    "schedules.rows",
    "replays.rows",
    "examples.rows",
    "served.rows",
    "limited.rows",
    "paused.rows",
];

fn main(rt: HostRuntime) -> anyhow::Result<()> {
    let mut all = Tally::new();
    for name in TABLES {
        let text = fs::read_to_string(&rt, name)?;
        let tally = tell_table::<Row>(&rt, rt.alloc(), name, text.as_str())?;
        all.add(tally);
    }
    println!(rt; "{} of {} rows hold", all.held, all.rows)?;
    Ok(())
}
