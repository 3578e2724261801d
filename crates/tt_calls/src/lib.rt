//! What calls between the crates speak of: what threads begin with, what they ask, what they are answered, and how an
//! evaluation ended.
#![tactic(auto)]

mod boxed;
mod chan_call;
mod event;
mod fitting;
mod lock_call;
mod outcome;
mod pool_call;
mod reply;
mod request;
mod start;
mod tsv_call;
pub mod usages;

pub use boxed::Boxed;
pub use chan_call::ChanCall;
pub use event::Event;
pub use fitting::fits;
pub use lock_call::{Family, Kind, LockCall};
pub use outcome::{Code, Outcome};
pub use pool_call::PoolCall;
pub use reply::{Reply, Shape, Step};
pub use request::{Mode, Request};
pub use start::Start;
pub use tsv_call::TsvCall;
