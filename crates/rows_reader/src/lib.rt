//! What the programs that read tables of rows have in common: how rows are cut out of a table's text, the words of a
//! line, and how many rows hold.
#![tactic(auto)]

mod table;
mod words;

pub use table::{Row, Tally, tell_table};
pub use words::{Words, copies, number_of, replaced, shown, whole_of, with_newlines, words_of};
