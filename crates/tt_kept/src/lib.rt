//! What an interpreter keeps (Tcl(n), proc(n), upvar(n)), and what an evaluation gets for what it wants.
#![tactic(auto)]

mod answering;
mod commands;
mod kept;
mod setup;

pub use kept::Kept;
pub use setup::Setup;
