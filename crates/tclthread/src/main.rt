//! Scripts of threads, run after a schedule or without one.
#![tactic(auto)]

mod program;
#[cfg(test)]
mod tests;

use program::program;
use std::env;
use std::process::ExitCode;
use tt_devices::{RealFiles, StdSink, StdSource, SystemDisk};

fn main(rt: HostRuntime) -> ExitCode {
    let (code, _) = program(
        &rt,
        env::args(&rt),
        &mut RealFiles::new(SystemDisk::new(&rt)),
        StdSource::new(rt.stdin()),
        StdSink::new(rt.stdout()),
        StdSink::new(rt.stderr()),
    );
    code
}
