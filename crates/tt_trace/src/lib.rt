//! The texts of the traces of errors (tclvars(n), errorInfo).
#![tactic(auto)]

mod trace;

pub use trace::{Joint, LONGEST, Trace, line_at};
