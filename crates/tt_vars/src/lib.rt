//! Variables (Tcl(n), upvar(n), array(n)): frames of names, each a scalar, an array or a link.
#![tactic(auto)]

mod answers;
mod elements;
mod frame;
pub mod laws;
mod links;
mod reading;
mod readings;
mod variable;
mod vars;

pub use answers::{Linked, VarFault, Written};
pub use vars::Vars;
