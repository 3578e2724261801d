//! The ids of threads, locks, pools and channels as texts, and the numbers of threads and jobs (thread(n), tpool(n),
//! chan(n)).
#![tactic(auto)]

mod id;
pub mod laws;
mod moment;
mod number;
mod thread_number;

pub use id::{IdKind, id_number, id_text};
pub use moment::moment_at;
pub use number::{count_with, number_after, number_of, number_text};
pub use thread_number::number_at;
