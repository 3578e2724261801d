//! Pools of workers: their jobs, who has begun them, and what they came to (tpool(n)).
#![tactic(auto)]

mod answers;
mod calls;
mod cancel;
mod jobs;
mod pool;
mod pools;
mod step;
mod telling;

pub use jobs::{Begun, Jobs, Queued};
pub use pool::Pool;
pub use pools::Pools;
pub use step::PoolStep;
