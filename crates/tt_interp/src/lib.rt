//! The interpreter of a thread (Tcl(n), thread(n)): it evaluates its start up to each request, and goes on with the
//! reply.
#![tactic(auto)]

mod hosted;
mod interp;
mod paused;
mod settling;

pub use interp::{Interp, Standing};
pub use paused::Paused;
pub use tt_kept::{Kept, Setup};
