//! The locks of scripts: mutexes, read-write locks and condition variables (thread(n)).
#![tactic(auto)]

mod answers;
mod blocking;
mod holders;
pub mod laws;
mod lock;
mod locks;
mod numbers;

pub use holders::Holders;
pub use lock::Lock;
pub use locks::Locks;
pub use numbers::Numbers;
