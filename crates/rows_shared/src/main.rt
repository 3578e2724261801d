//! Tables of requests of threads, and of what they are answered (thread(n), tsv(n), tpool(n), chan(n)). They stand in
//! the files of `data/`, and this says of each how many rows hold, or the first that doesn't and what came in its
//! place.
//!
//! A row is `THREAD: REQUEST => ANSWER`, where requests and answers are lists of words: see `names` and `answers`.
//! With `COUNT *` before it the request is made so many times, and the last answer is the row's. `waits` stands for a
//! request that can't be answered now, `ended` for one of a thread that doesn't live. A line that begins with `#`
//! says what the rows after it show, and with the line `new` all begins again, with thread 1 alone and an empty
//! script.
#![tactic(auto)]

mod answers;
mod calls;
mod names;
mod requests;
mod table;

use std::fs;

const TABLES: [&str; 7] = [
    "threads.rows",
    "sends.rows",
    "variables.rows",
    "locks.rows",
    "pools.rows",
    "channels.rows",
    "streams.rows",
];

fn main(rt: HostRuntime) -> anyhow::Result<()> {
    for name in TABLES {
        let text = fs::read_to_string(&rt, name)?;
        table::tell(&rt, rt.alloc(), name, text.as_str())?;
    }
    Ok(())
}
