//! A lock round one state, whose holder knows that the state fits the notes of all passes.
//!
//! A thread enters with a pass of its own, which has a number and a note. By the relation of a `Tie`, the state that
//! it finds fits the notes of all passes, and it leaves with a new note. The state is moved in and out, never copied.
#![tactic(auto)]

mod noted;
mod pass;
mod table;
mod tie;
mod wakes;

pub use noted::Noted;
pub use pass::{Pass, Turn};
pub use tie::Tie;
pub use wakes::Wakes;
