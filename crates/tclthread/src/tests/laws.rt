//! The laws.

use tt_devices::{MemoryFiles, MemorySink, MemorySource};
use tt_session::laws::{one_answer, recorded_runs_are_replayed};

#[test]
fn the_laws_hold(_rt: HostRuntime) {
    one_answer::<MemoryFiles, MemorySource, MemorySink, MemorySink>();
    recorded_runs_are_replayed::<MemoryFiles, MemorySource, MemorySource, MemorySink, MemorySink>();
}
