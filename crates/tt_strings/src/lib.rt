//! Strings by their characters (string(n), split(n)).
#![tactic(auto)]

mod ends;
mod finding;
mod making;
mod mapping;
mod places;
mod splitting;
mod trimming;

pub use finding::{first_place, last_place};
pub use making::{LONGEST, Repetition, compare, lower, repeated, reversed, upper};
pub use mapping::mapped;
pub use places::{character_at, character_in, leading, range, range_in};
pub use splitting::split_at;
pub use trimming::{Side, WHITE_SPACE, trim};
