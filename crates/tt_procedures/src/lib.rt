//! Procedures (proc(n), info(n)): how they are defined, what a call of one comes to, and which there are.
#![tactic(auto)]

mod calling;
mod messages;
mod procedure;
mod procedures;
mod reading;

pub use calling::{Argument, Arguments, Called};
pub use procedure::{Parameter, Parameters, Procedure};
pub use procedures::Procedures;
