//! The expressions of expr(n): how a text is read as a tree, and what an operator gives.
#![tactic(auto)]

mod applying;
mod climbing;
mod expression;
pub mod laws;
mod numbers;
mod op;
mod operators;
mod parsing;
mod pending;
mod reading;
mod signs;
mod tokens;
mod values;
mod words;

pub use applying::{apply, apply_to_numbers, boolean, result, truth};
pub use expression::{Expr, Parsed};
pub use op::Op;
pub use parsing::parse;
