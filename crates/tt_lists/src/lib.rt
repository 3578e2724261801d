//! Lists as texts (Tcl(n), list(n)): a text is split into items, items are joined into a text, and
//! indices are read.
#![tactic(auto)]

mod answer;
mod commands;
mod growing;
mod indices;
mod items;
pub mod laws;
mod messages;
mod parts;
mod place;
mod run;
mod searching;
mod spelling;
mod splitting;

pub use answer::ListAnswer;
pub use commands::{
    count, count_text, insert, insert_among, item, item_among, range, range_among, replace,
    replace_among,
};
pub use growing::push_item;
pub use indices::index;
pub use items::{ListFault, Split};
pub use messages::bad_index;
pub use place::Index;
pub use searching::{Matching, Search, find, find_among};
pub use spelling::{element, join_list, push_later_items};
pub use splitting::split;
