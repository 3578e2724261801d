//! Runs on workers whose input or record fails. What fails in other calls stands in `rows_session`.

use super::{Fails, NEVER, call};
use std::test::Fail;

/// A script that reads the line `c`, which calls fail, and what that comes to: its status and exit code, what it
/// writes, what standard error gets, and what is recorded.
#[derive(Clone, Copy)]
struct Row<'a> {
    script: &'a [u8],
    fails: Fails,
    status: &'a str,
    exit: u8,
    output: &'a [u8],
    errors: &'a [u8],
    kept: Option<&'a [u8]>,
}

/// A run whose record can't be written, and that would stall.
const UNWRITTEN: Row = Row {
    script: b"vwait x",
    fails: Fails { writes: 1, ..NEVER },
    status: "write fault",
    exit: 105,
    output: b"",
    errors: b"tclthread: write fault\n",
    kept: None,
};

/// A line on each sink, and a read.
const READS: &[u8] = b"puts a\nputs stderr b\nputs [gets stdin]";

const ROWS: [Row; 4] = [
    UNWRITTEN,
    Row {
        script: b"puts hi",
        output: b"hi\n",
        ..UNWRITTEN
    },
    Row {
        script: READS,
        fails: Fails { takes: 1, ..NEVER },
        status: "read fault",
        exit: 104,
        output: b"a\n",
        errors: b"b\ntclthread: read fault\n",
        kept: Some(b"schedule 1\n1 2\n"),
    },
    Row {
        script: READS,
        fails: Fails {
            writes: 1,
            takes: 1,
        },
        output: b"a\n",
        errors: b"b\ntclthread: write fault\n",
        ..UNWRITTEN
    },
];

#[test]
fn a_record_that_fails_changes_the_status(rt: HostRuntime) -> Result<(), Fail> {
    for row in ROWS {
        let words = ["--record", "kept", "script"];
        let left = call(&rt, &words, row.script, b"", b"c\n", row.fails)?;
        assert_eq!(rt; left.status.as_str(), row.status);
        assert_eq!(rt; left.exit, row.exit);
        assert_eq!(rt; left.output.as_slice(), row.output);
        assert_eq!(rt; left.errors.as_slice(), row.errors);
        assert_eq!(rt; left.kept.as_ref().map(|bytes| bytes.as_slice()), row.kept);
    }
    Ok(())
}
