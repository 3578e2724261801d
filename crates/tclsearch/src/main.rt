//! Looks for a schedule under which a script of threads ends otherwise than with its threads in turn.
#![tactic(auto)]

pub mod laws;
mod program;

use program::program;
use std::env;
use std::process::ExitCode;
use tt_devices::{RealFiles, StdSink, StdSource, SystemDisk};

fn main(rt: HostRuntime) -> ExitCode {
    let (code, _) = program(
        &rt,
        env::args(&rt),
        &mut RealFiles::new(SystemDisk::new(&rt)),
        StdSource::new(rt.stdin()),
        StdSink::new(rt.stdout()),
        StdSink::new(rt.stderr()),
    );
    code
}
