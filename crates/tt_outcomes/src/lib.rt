//! What an evaluation wants of the interpreter that hosts it, what it gets, and how it ends inside of it. That is a
//! result, an error and its trace so far, or a code of return(n), break(n) or continue(n).
#![tactic(auto)]

mod ending;
mod got;
mod outcomes;
mod places;
mod want;

pub use ending::{Ending, Failure};
pub use got::Got;
pub use outcomes::code_number;
pub use places::command_text;
pub use want::{Body, Want};
