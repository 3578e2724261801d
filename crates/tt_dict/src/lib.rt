//! What the words of dict(n) mean, and what its changes make of a dictionary: a table of names, usages and meanings.
#![tactic(auto)]

mod answers;
mod call;
mod changes;
mod changing;
mod edit;
pub mod laws;
mod messages;
mod paths;
mod reading;
mod row;
mod subcommand;
mod telling;
mod variables;

pub use call::DictCall;
pub use changes::Change;
pub use reading::read_dict;
