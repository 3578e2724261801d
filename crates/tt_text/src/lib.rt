//! Byte text: every value of Tcl(n) is one.
#![tactic(auto)]

mod backslashes;
mod braces;
mod characters;
mod comparing;
mod few;
mod glob_set;
pub mod laws;
mod many;
mod no_memory;
mod patterns;
mod quoted;
mod sequence;
mod text;
mod texts;
mod white_space;

pub use backslashes::backslash;
pub use braces::{is_balanced, matching_brace};
pub use characters::{char_count, continues_character, split_character};
pub use no_memory::NoMemory;
pub use patterns::glob;
pub use quoted::quoting;
pub use sequence::Backslash;
pub use text::Text;
pub use texts::Texts;
pub use white_space::{is_white_space, without_white_front};
