//! The report of who waits for whom in a run of a script (thread(n), tsv(n), chan(n)).
#![tactic(auto)]

mod report;

pub use report::waits_report;
