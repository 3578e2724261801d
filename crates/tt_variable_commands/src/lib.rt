//! The commands on variables as such: their levels and links (global(n), upvar(n), uplevel(n)), what info(n) says of
//! them, and their arrays (array(n)), over what one interpreter keeps.
#![tactic(auto)]

pub mod arrays;
pub mod levels;
mod row;
mod vocabulary;
