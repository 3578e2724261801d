//! Tables of whole calls of the program, with what fails in them: how a call ends, what it writes, the steps that are
//! taken, and the files that it leaves. They stand in the files of `data/`, and this says how many rows hold, and shows
//! those that don't.
//!
//! A row begins with `== ` and its name. The lines after it are the file `script`; without any there is none. Then come
//! what the call begins with, and what it comes to:
//!
//! - `%% words LIST`: its words; without this line they are `--replay schedule script`.
//! - `%% file NAME TEXT`: a file, where `\n` stands for a newline.
//! - `%% input TEXT`: standard input, where `\n` stands for a newline; without this line it is empty.
//! - `%% fails DEVICE N ...`: these calls of `reads`, `writes`, `input`, `output` or `errors` fail, counted from 1. A
//!   piece that isn't put then is cut in half.
//! - `%% greatest DEVICE`: the count of faults of `files`, `input`, `output` or `errors` is at its greatest, and stays
//!   there.
//! - `> LINE`: a line of standard output, and `! LINE` one of standard error; `>- TEXT` and `!- TEXT` are texts that no
//!   newline follows.
//! - `@ T N ...`: thread T took N steps, and so on; without this line there was no step.
//! - `+ NAME TEXT`: a file that the call made or changed, as it is afterwards. Each other one is as it was.
//! - `= CODE STATUS`: the exit code, and how the call ended, in the words of `status`; or `= plain`, if it would need
//!   workers.
#![tactic(auto)]

mod call;
mod devices;
mod row;
mod settings;
mod status;
mod table;

use row::Row;
use rows_reader::{Tally, tell_table};
use std::fs;

const TABLES: [&str; 6] = [
    "statuses.rows",
    "limits.rows",
    "output.rows",
    "input.rows",
    "files.rows",
    "reports.rows",
];

fn main(rt: HostRuntime) -> anyhow::Result<()> {
    let mut all = Tally::new();
    for name in TABLES {
        let text = fs::read_to_string(&rt, name)?;
        let tally = tell_table::<Row>(&rt, rt.alloc(), name, text.as_str())?;
        all.add(tally);
    }
    println!(rt; "{} of {} rows hold", all.held, all.rows)?;
    Ok(())
}
