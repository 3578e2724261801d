//! Tables of scripts, and of what they write and how they end (Tcl(n) and the pages of its commands). They stand in the
//! files of `data/`, and this says of each how many rows hold, and what came in place of each that doesn't.
//!
//! A row begins with `== ` and its name; a `*` at the end of the name says that Tcl 8.6 itself differs there. The lines
//! after it are the script, after a line `%% limit N` if it may spend so many units alone. After a line `-- ` come the
//! lines of standard output, after a line `!! ` those of standard error, and `=> ` with the exit code ends the row.
#![tactic(auto)]

mod host;
mod row;
mod table;

use row::Row;
use rows_reader::tell_table;
use std::fs;

const TABLES: [&str; 26] = [
    "words.rows",
    "expressions.rows",
    "control.rows",
    "errors.rows",
    "variables.rows",
    "lists.rows",
    "strings.rows",
    "switch.rows",
    "limits.rows",
    "procedures.rows",
    "levels.rows",
    "links.rows",
    "arrays.rows",
    "info.rows",
    "nesting.rows",
    "numbers.rows",
    "spellings.rows",
    "formats.rows",
    "values.rows",
    "frames.rows",
    "dict.rows",
    "redefined.rows",
    "loops.rows",
    "texts.rows",
    "traces.rows",
    "deep.rows",
];

fn main(rt: HostRuntime) -> anyhow::Result<()> {
    for name in TABLES {
        let text = fs::read_to_string(&rt, name)?;
        let tally = tell_table::<Row>(&rt, rt.alloc(), name, text.as_str())?;
        println!(rt; "{name}: {} of {} rows hold", tally.held, tally.rows)?;
    }
    Ok(())
}
