//! Lists of what stands under the numbers of threads (thread(n)).
#![tactic(auto)]

mod places;

pub use places::Places;
