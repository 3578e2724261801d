//! The outside, as the rest sees it: sources of bytes, sinks, named files, and the gate that a resumed thread
//! passes. What an object holds, has got or maps is shown if it can show it: objects in memory show it, and those of
//! the system do not.
#![tactic(auto)]

mod clock;
mod disk;
mod failed;
mod fault_plan;
mod files;
mod gate;
mod memory_disk;
mod memory_files;
mod memory_sink;
mod memory_source;
mod real_files;
mod sink;
mod source;
mod std_streams;
mod system_disk;
mod whole;

pub use clock::{Clock, StdClock, StepClock};
pub use disk::Disk;
pub use failed::Failed;
pub use files::{Files, ReadAnswer};
pub use gate::{Gate, OpenGate, Slice};
pub use memory_disk::MemoryDisk;
pub use memory_files::MemoryFiles;
pub use memory_sink::MemorySink;
pub use memory_source::MemorySource;
pub use real_files::RealFiles;
pub use sink::Sink;
pub use source::Source;
pub use std_streams::{StdSink, StdSource};
pub use system_disk::SystemDisk;
pub use whole::{Unread, read_whole};

#[cfg(test)]
mod tests;
