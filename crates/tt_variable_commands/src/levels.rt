//! The commands on levels and links (global(n), upvar(n), uplevel(n)), and what info(n) reports of them.

mod command;
mod counting;
mod linking;
mod messages;
mod running;
mod telling;
mod words;

pub use running::run;
