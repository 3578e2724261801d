//! What stands under names, in the order in which the names came: few names are searched, many are hashed.
#![tactic(auto)]

mod few;
mod moving;
mod names;
mod storage;

pub use names::Names;
