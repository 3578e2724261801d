//! The whole numbers of Tcl(n) and expr(n): how a text is read as one, how one is written, and the
//! operators on them.
#![tactic(auto)]

mod decimal;
pub mod laws;
mod messages;
mod numeral;
mod operators;

pub use decimal::whole_text;
pub use numeral::{NumberFault, digits_of, read_whole, trimmed};
pub use operators::{ArithFault, NumOp, OneOp, binary, unary};
