//! The whole program over a reader and two writers.

use crate::program::program;
use std::env;
use std::env::{Env, FillError};
use std::process::{Abort, ExitCode};
use std::sync::Wait;
use std::test::Fail;
use std::thread::Threads;
use tt_devices::{MemoryFiles, StdSink, StdSource};

/// An environment with these words.
#[derive(Drop)]
struct Words<'a> {
    all: &'a [&'a [u8]],
}

impl Env for Words<'_> {
    fn arg(&self, i: usize, buf: &mut [u8]) -> Result<usize, FillError> {
        let Some(word) = self.all.get(i) else {
            return Err(FillError::NotPresent);
        };
        let Some(room) = buf.get_mut(..word.len()) else {
            return Err(FillError::TooLong);
        };
        room.copy_from_slice(word);
        Ok(word.len())
    }

    fn var(&self, _name: &str, _buf: &mut [u8]) -> Result<usize, FillError> {
        Err(FillError::NotPresent)
    }

    fn var_at(&self, _i: usize, _buf: &mut [u8]) -> Result<usize, FillError> {
        Err(FillError::NotPresent)
    }
}

/// A call: its words, the program's name first, the script and the schedule in its files, and what it comes to.
#[derive(Clone, Copy)]
struct Call<'a> {
    words: &'a [&'a [u8]],
    script: &'a [u8],
    schedule: &'a [u8],
    input: &'a [u8],
    exit: u8,
    output: &'a [u8],
    errors: &'a [u8],
    recorded: Option<&'a [u8]>,
}

/// A run that is over with code 0.
const OVER: Call = Call {
    words: &[b"tclthread", b"--replay", b"schedule", b"script"],
    script: b"",
    schedule: b"",
    input: b"",
    exit: 0,
    output: b"",
    errors: b"",
    recorded: None,
};

/// Wrong words.
const USAGE: Call = Call {
    exit: 106,
    errors: b"tclthread: usage: tclthread [--workers N] [--steps N] [--limit N] [--record FILE] [--replay FILE] \
        [--generate NUMBER] [--waits] [--races] [--debug FILE] SCRIPT [ARG ...]\n",
    ..OVER
};

/// What two thousand jobs come to: sums of the words of the generator, worked out by a program of its own after the
/// paper on PCG.
const JOBS: &[u8] = b"k0 117673
k1 128263
k2 116695
k3 125590
k4 127732
k5 128891
k6 123762
k7 99948
jobs 2000
";

const CALLS: [Call; 10] = [
    Call {
        script: b"puts \xFF\x00\x80; while {[gets stdin line] >= 0} {puts <$line>}",
        schedule: b"schedule 1\n1 7\n",
        input: b"a\n\xFF",
        output: b"\xFF\x00\x80\n<a>\n<\xFF>\n",
        ..OVER
    },
    Call {
        words: &[
            b"tclthread",
            b"--workers",
            b"2",
            b"--record",
            b"kept",
            b"script",
            b"",
            b"b c",
            b"--",
            b"-x",
        ],
        script: b"puts \"$argv0 $argc <$argv>\"",
        output: b"script 3 <{} {b c} -x>\n",
        recorded: Some(b"schedule 1\n1 2\n"),
        ..OVER
    },
    Call {
        words: &[b"tclthread", b"--generate", b"7", b"2000"],
        output: JOBS,
        ..OVER
    },
    Call {
        script: b"puts a; exit 258",
        schedule: b"schedule 1\n1 2\n",
        exit: 2,
        output: b"a\n",
        ..OVER
    },
    Call {
        script: b"puts a; vwait x; puts b",
        schedule: b"schedule 1\n1 2\n",
        exit: 108,
        output: b"a\n",
        errors: b"tclthread: bad schedule at entry 2\n",
        ..OVER
    },
    Call {
        script: b"puts a",
        schedule: b"schedule 1\n1 2\n1 1\n",
        exit: 108,
        errors: b"tclthread: bad schedule at byte 15\n",
        ..OVER
    },
    Call {
        words: &[b"tclthread", b"--record", b"kept", b"none.tcl"],
        exit: 107,
        errors: b"tclthread: no file none.tcl\n",
        ..OVER
    },
    Call {
        words: &[b"tclthread"],
        ..USAGE
    },
    Call {
        words: &[b"tclthread", b"script", b"\xFF"],
        ..USAGE
    },
    Call {
        words: &[b"tclthread", b"--workers", b"65", b"script"],
        ..USAGE
    },
];

#[test]
fn calls_come_to_their_ends(rt: HostRuntime) -> Result<(), Fail> {
    for call in CALLS {
        holds(&rt, &call)?;
    }
    Ok(())
}

/// A call comes to what is wanted.
fn holds<R: Threads + Wait + Sync + AllocGlobal + Abort>(rt: &R, call: &Call) -> Result<(), Fail> {
    let alloc = rt.alloc();
    let mut files = MemoryFiles::new(alloc, Vec::new(alloc), Vec::new(alloc));
    files.add("script", call.script)?;
    files.add("schedule", call.schedule)?;
    let mut output = Vec::new(alloc);
    let mut errors = Vec::new(alloc);
    let (code, ended) = program(
        rt,
        env::args(&(Words { all: call.words }, alloc)),
        &mut files,
        StdSource::new(call.input),
        StdSink::new(&mut output),
        StdSink::new(&mut errors),
    );
    drop(ended);
    assert!(rt; code == ExitCode::from(call.exit));
    assert_eq!(rt; output.as_slice(), call.output);
    assert_eq!(rt; errors.as_slice(), call.errors);
    assert_eq!(rt; files.bytes("kept"), call.recorded);
    Ok(())
}
