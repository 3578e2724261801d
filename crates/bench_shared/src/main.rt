//! Times of what threads share: requests of each kind, and increments of shared variables.
//!
//! Without arguments it says what comes out. With the argument `times` and the name of a part, `requests` or `arrays`,
//! it prints that part's times.
#![tactic(auto)]

mod arrays;
mod requests;

use std::env;

fn main(rt: HostRuntime) -> anyhow::Result<()> {
    let Some(part) = env::args(&rt)?.nth(2) else {
        requests::run_all(&rt, rt.alloc(), false)?;
        return arrays::run_all(&rt, rt.alloc(), false);
    };
    match part.as_str() {
        "requests" => requests::run_all(&rt, rt.alloc(), true),
        _ => arrays::run_all(&rt, rt.alloc(), true),
    }
}
