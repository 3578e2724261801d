//! Tables of starts of threads, and of what their interpreters ask and are replied (thread(n), Tcl(n)). They stand in
//! the files of `data/`. This says of each how many rows hold, and shows those that don't.
//!
//! A row begins with `== ` and its name. The lines after it are the script: of the thread of a number after a line
//! `%% thread N`, else of thread 1. After a line `%% limit N` the thread may spend so many units. A line after `? ` is
//! what is asked, and one after `! ` what that is replied: lists, in which `\n` is a newline (see `requests` and
//! `replies`). A row ends with what is asked last, after which no reply is taken, or with a line `...`.
#![tactic(auto)]

mod calls;
mod replies;
mod requests;
mod row;
mod run;
mod table;
mod telling;

use row::Row;
use rows_reader::tell_table;
use std::fs;

const TABLES: [&str; 5] = [
    "requests.rows",
    "words.rows",
    "usages.rows",
    "asked.rows",
    "pauses.rows",
];

fn main(rt: HostRuntime) -> anyhow::Result<()> {
    for name in TABLES {
        let text = fs::read_to_string(&rt, name)?;
        let tally = tell_table::<Row>(&rt, rt.alloc(), name, text.as_str())?;
        println!(rt; "{name}: {} of {} rows hold", tally.held, tally.rows)?;
    }
    Ok(())
}
