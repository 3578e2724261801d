//! The commands that answer by their words alone (list(n), lsearch(n), lsort(n), string(n), format(n) and others): a
//! table of names, usages and meanings.
#![tactic(auto)]

mod answering;
mod command;
mod flags;
mod formatting;
mod lists;
mod made;
mod row;
mod searching;
mod sorting;
mod strings;
mod subcommand;
mod texts;
mod usages;

pub use answering::{is_pure, pure};
