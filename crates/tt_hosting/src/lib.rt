//! A stack whose host answers what it can: an evaluation stops only at what must be asked outside.
#![tactic(auto)]

mod driving;
mod hosted;

pub use driving::{Reached, begin, turn};
pub use hosted::{Answered, Hosted};
