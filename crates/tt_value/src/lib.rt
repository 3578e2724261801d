//! Values of variables (Tcl(n)): texts, that are read as numbers and as lists if a command asks for one, and that keep
//! what they were read as.
#![tactic(auto)]

mod changing;
mod items;
mod kept;
mod kept_pairs;
pub mod laws;
mod listing;
mod made;
mod pairing;
mod pairs;
mod value;
mod values;

pub use changing::{Appending, Changing, Lengthening};
pub use items::Items;
pub use made::Made;
pub use pairs::Pairs;
pub use value::Value;
pub use values::{Values, texts_of, values_of};
