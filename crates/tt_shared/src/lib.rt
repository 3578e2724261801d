//! What threads share, and what their requests do to it: the queues of events, the posts that wait for an answer,
//! shared variables, locks, pools and channels (thread(n), tsv(n), tpool(n), chan(n)).
#![tactic(auto)]

mod applied;
mod apply;
mod blocking;
mod enabled;
mod ends;
pub mod laws;
mod parts;
mod posts;
mod queues;
mod reports;
mod sends;
mod serving;
mod shared;
mod starts;

pub use applied::{Applied, Line};
pub use posts::{Posts, VariablePost};
pub use queues::Queues;
pub use reports::ErrorProcedure;
pub use shared::Shared;
