//! How the words of a command and an expression are substituted and computed (Tcl(n), expr(n)): flat code that stops at
//! what it needs from outside, a variable, an element or a script in brackets, and goes on with the value.
#![tactic(auto)]

mod builder;
mod code;
mod expressions;
mod kind;
pub mod laws;
mod making;
mod quick;
mod running;
mod stack;
mod steps;
mod truths;
mod words;

pub use code::Code;
pub use making::{condition_code, value_code, words_code};
pub use running::Running;
pub use steps::Halt;
pub use truths::{bit, truth_value};
