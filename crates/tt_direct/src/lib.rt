//! Direct evaluation: jobs are evaluated in place, within one another, as far as nothing is requested and not too many
//! levels deep (Tcl(n), expr(n), while(n), for(n)). What comes then is a move, as a stack of frames makes it, and what
//! lies around it is left on the stack as frames.
#![tactic(auto)]

mod came;
mod choices;
mod commands;
mod jobs;
mod leaving;
mod loops;
mod moves;
mod needs;
mod nested;
mod parts;
mod scripts;

pub use jobs::{Next, begin, go_on, take};
