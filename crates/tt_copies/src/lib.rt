//! Requests and replies that are equal to others (thread(n)).
#![tactic(auto)]

mod calls;
mod reply;
mod request;

pub use reply::copy_reply;
pub use request::copy_request;
