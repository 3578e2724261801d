//! What one interpreter keeps of variables (set(n), proc(n), upvar(n), uplevel(n)): frames, levels and watches, and the
//! commands on single variables.
#![tactic(auto)]

mod answers;
mod appending;
mod arrays;
mod calling;
mod changing;
mod command;
mod increment;
mod listed;
mod messages;
mod nesting;
mod often;
mod rereads;
mod row;
mod run;
mod scalars;
mod spot;
mod store;
mod watch;

pub use answers::Answer;
pub use scalars::outcome_by;
pub use spot::full_name;
pub use store::Store;
