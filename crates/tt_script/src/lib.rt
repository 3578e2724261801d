//! The commands of a script, read as Tcl(n) says.
#![tactic(auto)]

mod braces;
mod builder;
mod command;
mod elements;
pub mod laws;
mod messages;
mod mode;
mod names;
mod operands;
mod parser;
mod scan;
mod script;
mod stop;

pub use command::{Command, First, ParseFault, Part, Word};
pub use elements::{global_name, plain_name, split_name};
pub use operands::{braced_text, quoted_parts, script_part, variable_part};
pub use script::{DEPTH, first_command};
