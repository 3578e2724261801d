//! What the commands answer that make lists and texts of whole lists: lreverse(n), lrepeat(n), lsort(n), join(n) and
//! concat(n).
#![tactic(auto)]

mod concatenating;
mod joining;
pub mod laws;
mod repeating;
mod reversing;
mod sorting;

pub use concatenating::concat;
pub use joining::join;
pub use repeating::{LONGEST, repeat};
pub use reversing::reversed;
pub use sorting::{Sorting, sort};
