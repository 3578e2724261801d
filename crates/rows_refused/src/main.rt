//! Runs of scripts in which memory may be refused, each after a schedule of its own, and whether what it wrote agrees
//! with a fresh run of the steps that it took. `checks/refused-memory.sh` refuses one allocation after another.
//!
//! The word is the name of a run, whose script and schedule stand in `data/`; without a word each of them is run. One
//! line says how it ended, and another whether it agrees: both outputs got what the fresh run wrote, and standard error
//! its status line after that; a run that couldn't write lacks at most a part of what its last step writes.
#![tactic(auto)]

mod compare;
mod run;

use compare::agrees;
use run::run;
use std::alloc::Global;
use std::env;
use tt_devices::{Files, RealFiles, SystemDisk};
use tt_session::Status;

const RUNS: [&str; 5] = ["head", "nested", "counter", "channel", "pool"];

fn main(rt: HostRuntime) -> anyhow::Result<()> {
    let mut files = RealFiles::new(SystemDisk::new(&rt));
    let Ok(mut words) = env::args(&rt) else {
        return report_none(&rt);
    };
    let _name = words.next();
    match words.next() {
        Some(word) => report(&rt, rt.alloc(), &mut files, word.as_str()),
        None => report_all(&rt, rt.alloc(), &mut files),
    }
}

fn report_all<F: Files>(rt: &impl Print, alloc: Global, files: &mut F) -> anyhow::Result<()> {
    for name in RUNS {
        report(rt, alloc, files, name)?;
    }
    Ok(())
}

/// Reports how the run of this name ended, and then whether it agrees. What is refused stops at the first of these
/// lines.
fn report<F: Files>(
    rt: &impl Print,
    alloc: Global,
    files: &mut F,
    name: &str,
) -> anyhow::Result<()> {
    let Ok(left) = run(alloc, files, name) else {
        return report_none(rt);
    };
    println!(rt; "{}", status_words(&left.status))?;
    let agrees = agrees(alloc, files, name, &left)?;
    println!(rt; "{}", if agrees { "agrees" } else { "differs" })?;
    Ok(())
}

/// Memory for the words was refused, and nothing was done.
fn report_none(rt: &impl Print) -> anyhow::Result<()> {
    println!(rt; "no memory")?;
    println!(rt; "agrees")?;
    Ok(())
}

fn status_words(status: &Status) -> &str {
    match status {
        Status::Done(0) => "done",
        Status::NoMemory => "no memory",
        Status::WriteFault => "write fault",
        _ => "another status",
    }
}
