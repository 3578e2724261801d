//! A search for a schedule under which a script ends otherwise than with its threads in turn: many runs over devices in
//! memory, the find made small, and one run of it over the given devices.
#![tactic(auto)]

mod begun;
mod chooser;
mod hunt;
mod judging;
mod priorities;
mod reporting;
mod rounds;
mod rows;
mod searched;
mod searching;
mod shrinking;
mod trial;

pub use searched::{SearchEnd, Searched};
pub use searching::{refuse, search};
