//! Tables of what programs read and make beside scripts: what the words of command lines ask for, of `tclthread` and of
//! `tclsearch`, what texts of schedules say, and which scripts numbers give. They stand in `data/`, and this says of each
//! how many rows hold, and shows those that don't.
//!
//! A row is what is read, then ` => `, and what comes of it. A line that begins with `#` is no row.
//!
//! The manual pages stand there too, and the last lines say whether a page's synopsis is the program's usage line.
#![tactic(auto)]

mod schedules;
mod searches;
mod telling;
mod words;
mod workloads;

use std::alloc::{AllocError, Global};
use std::fs;
use std::rt::Files;

/// What stands before the synopsis in the manual page.
const HEADING: &str = ".SH SYNOPSIS\n.nf\n";

/// What the rows of a table are about.
#[derive(Clone, Copy)]
enum Subject {
    Words,
    Searches,
    Schedules,
    Workloads,
}

const TABLES: [(&str, Subject); 4] = [
    ("words.rows", Subject::Words),
    ("searches.rows", Subject::Searches),
    ("schedules.rows", Subject::Schedules),
    ("workloads.rows", Subject::Workloads),
];

/// The manual pages, each with the usage line of its program.
const PAGES: [(&str, &[u8]); 2] = [
    ("tclthread.1", tt_words::USAGE),
    ("tclsearch.1", tt_search_words::USAGE),
];

fn main(rt: HostRuntime) -> anyhow::Result<()> {
    for (name, subject) in TABLES {
        tell_table(&rt, rt.alloc(), name, subject)?;
    }
    for (name, usage) in PAGES {
        let page = fs::read_to_string(&rt, name)?;
        let answer = if has_usage(rt.alloc(), page.as_str(), usage)? {
            "is"
        } else {
            "is NOT"
        };
        println!(rt; "{name}: the synopsis {answer} the usage line")?;
    }
    Ok(())
}

/// Says how many rows of a table hold, and shows those that don't.
fn tell_table(
    rt: &(impl Files + Alloc<A = Global> + Print),
    alloc: Global,
    name: &str,
    subject: Subject,
) -> anyhow::Result<()> {
    let text = fs::read_to_string(rt, name)?;
    let mut rows = 0u32;
    let mut good = 0u32;
    for line in text.lines() {
        if line.starts_with('#') {
            continue;
        }
        rows = rows.saturating_add(1);
        if holds(rt, alloc, line, subject)? {
            good = good.saturating_add(1);
        }
    }
    println!(rt; "{name}: {good} of {rows} rows hold")?;
    Ok(())
}

/// Whether the row holds; else it is shown.
fn holds(rt: &impl Print, alloc: Global, row: &str, subject: Subject) -> anyhow::Result<bool> {
    let Some((given, wanted)) = row.split_once("=> ") else {
        anyhow::bail!("a line that is no row");
    };
    let found = match subject {
        Subject::Words => words::answer(alloc, given)?,
        Subject::Searches => searches::answer(alloc, given)?,
        Subject::Schedules => schedules::answer(alloc, given.trim_end())?,
        Subject::Workloads => workloads::answer(alloc, given, wanted)?,
    };
    let holds = found.as_str() == wanted;
    if !holds {
        println!(rt; "{given}=> {found}")?;
    }
    Ok(holds)
}

/// Whether the page's synopsis is the usage line. The page writes each `-` with a backslash before it.
fn has_usage(alloc: Global, page: &str, usage: &[u8]) -> Result<bool, AllocError> {
    let Some((_, rest)) = page.split_once(HEADING) else {
        return Ok(false);
    };
    let synopsis = rest.lines().next().unwrap_or("");
    let plain = synopsis.replace(alloc, "\\-", "-")?;
    Ok(plain.as_bytes() == usage)
}
