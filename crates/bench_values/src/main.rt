//! Times of values: lists split and joined and expressions read, the commands on lists and strings, lists that values
//! keep, and variables read and written.
//!
//! Without arguments it says what comes out. With the argument `times` and the name of a part, `lists`, `commands`,
//! `values` or `variables`, it prints that part's times.
#![tactic(auto)]

mod commands;
mod lists;
mod values;
mod variables;

use std::env;

fn main(rt: HostRuntime) -> anyhow::Result<()> {
    let Some(part) = env::args(&rt)?.nth(2) else {
        lists::run_all(&rt, rt.alloc(), false)?;
        commands::run_all(&rt, rt.alloc(), false)?;
        values::run_all(&rt, rt.alloc(), false)?;
        return variables::run_all(&rt, rt.alloc(), false);
    };
    match part.as_str() {
        "lists" => lists::run_all(&rt, rt.alloc(), true),
        "commands" => commands::run_all(&rt, rt.alloc(), true),
        "values" => values::run_all(&rt, rt.alloc(), true),
        _ => variables::run_all(&rt, rt.alloc(), true),
    }
}
