//! Runs on workers.

use super::{Left, NEVER, WORDS, call, left_of, owned};
use std::hint::spin_loop;
use std::process::Abort;
use std::sync::Wait;
use std::sync::atomic::AtomicU64;
use std::sync::atomic::Ordering::SeqCst;
use std::test::Fail;
use std::thread::Threads;
use tt_devices::{Gate, MemoryFiles, MemorySink, MemorySource, Slice};
use tt_session::session;

/// A script, the most steps of a run, and what that comes to on any number of workers: its status, what it writes, what
/// standard error gets, and the schedule if there is one alone.
#[derive(Clone, Copy)]
struct Row<'a> {
    script: &'a [u8],
    steps: &'a str,
    status: &'a str,
    output: &'a [u8],
    errors: &'a [u8],
    schedule: Option<&'a [u8]>,
}

/// A run that is over with code 0.
const OVER: Row = Row {
    script: b"",
    steps: "100000",
    status: "done 0",
    output: b"",
    errors: b"",
    schedule: None,
};

/// A run in which no thread can go on.
const STALLED: Row = Row {
    status: "stalled",
    errors: b"tclthread: stalled\n",
    ..OVER
};

/// Two hundred jobs of a pool, which add up numbers and their squares.
const JOBS: &[u8] = b"package require Thread
set p [tpool::create -minworkers 2 -maxworkers 4 -initcmd {
    proc work {n} {
        tsv::lock total {
            tsv::incr total sum $n
            tsv::incr total count
        }
        return [expr {$n * $n}]
    }
}]
set jobs {}
for {set i 1} {$i <= 200} {incr i} {
    lappend jobs [tpool::post -nowait $p [list work $i]]
}
set left $jobs
while {[llength $left]} { tpool::wait $p $left left }
set squares 0
foreach j $jobs { incr squares [tpool::get $p $j] }
tpool::release $p
puts \"[tsv::get total count] jobs, sum [tsv::get total sum], squares $squares\"
";

/// Two threads that count under a hold of one array.
const COUNTERS: &[u8] = b"tsv::set a n 0
set t [thread::create -joinable {for {set i 0} {$i < 1000} {incr i} {tsv::incr a n}}]
for {set i 0} {$i < 1000} {incr i} {tsv::lock a {tsv::lock a {tsv::set a n [expr {[tsv::get a n] + 1}]}}}
thread::join $t
puts [tsv::get a n]
";

/// A mutex that is locked twice, unlocked by another thread and unlocked twice, and then kept by a thread that ended.
const MUTEX: &[u8] = b"set m [thread::mutex create]
set t [thread::create]
thread::mutex lock $m
puts \"[catch {thread::mutex lock $m} e] $e\"
puts \"[catch {thread::send $t [list thread::mutex unlock $m]} e] $e\"
thread::mutex unlock $m
puts \"[catch {thread::mutex unlock $m} e] $e\"
thread::join [thread::create -joinable [list thread::mutex lock $m]]
thread::mutex lock $m
";

/// A `vwait` within a `vwait`, of which the inner one ends first.
const NESTED: &[u8] = b"proc inner {} {vwait y; puts inner}
thread::send -async [thread::id] inner
thread::send -async [thread::id] {set x 1; puts x}
thread::send -async [thread::id] {set y 1; puts y}
vwait x
puts done
";

/// A channel that goes to another thread.
const CHANNEL: &[u8] = b"set t [thread::create]
lassign [chan pipe] r w
puts $w hello
thread::transfer $t $r
puts \"[catch {gets $r} e] $e\"
puts [thread::send $t [list gets $r]]
";

const ROWS: [Row; 11] = [
    Row {
        script: b"set t [thread::create]; puts [thread::send $t {expr {6 * 7}}]",
        output: b"42\n",
        ..OVER
    },
    Row {
        script: b"set t [thread::create]; puts \"[catch {thread::send $t thread::exit} m] $m\"",
        output: b"1 target thread died\n",
        ..OVER
    },
    Row {
        script: b"set t [thread::create]; thread::send $t [list thread::send [thread::id] {set x 1}]",
        ..STALLED
    },
    Row {
        script: b"vwait x",
        schedule: Some(b"schedule 1\n"),
        ..STALLED
    },
    Row {
        script: NESTED,
        output: b"x\ny\ninner\ndone\n",
        schedule: Some(b"schedule 1\n1 11\n"),
        ..OVER
    },
    Row {
        script: b"set t [thread::create]; thread::send -async $t {error oops} v; vwait v; puts $v",
        output: b"oops\n",
        ..OVER
    },
    Row {
        script: b"set t [thread::create]; thread::send -async $t {error oops}; thread::send $t {}",
        errors: b"Error from thread tid2\noops\n    while executing\n\"error oops\"\n",
        ..OVER
    },
    Row {
        script: MUTEX,
        output: b"1 locking the same exclusive mutex twice from the same thread\n\
            1 mutex is owned by another thread\n\
            1 mutex is not locked\n",
        ..STALLED
    },
    Row {
        script: CHANNEL,
        output: b"1 can not find channel named \"chan1\"\nhello\n",
        ..OVER
    },
    Row {
        script: b"while 1 {tsv::incr a x}",
        steps: "5",
        status: "step limit 5",
        errors: b"tclthread: step limit 5\n",
        schedule: Some(b"schedule 1\n1 5\n"),
        ..OVER
    },
    Row {
        script: b"set p [tpool::create]; set j [tpool::post $p {expr 1+1}]; tpool::wait $p $j; \
            puts [tpool::get $p $j]; puts \"[catch {tpool::get $p $j} e] $e\"",
        output: b"2\n1 no such job \"1\"\n",
        ..OVER
    },
];

/// Runs of thousands of steps.
const LONG_ROWS: [Row; 2] = [
    Row {
        script: COUNTERS,
        output: b"2000\n",
        ..OVER
    },
    Row {
        script: JOBS,
        output: b"200 jobs, sum 20100, squares 2686700\n",
        ..OVER
    },
];

#[test]
fn runs_on_workers_come_to_their_ends_and_are_replayed(rt: HostRuntime) -> Result<(), Fail> {
    all_hold_on_workers(&rt, &ROWS)
}

#[test]
fn long_runs_on_workers_do_too(rt: HostRuntime) -> Result<(), Fail> {
    all_hold_on_workers(&rt, &LONG_ROWS)
}

/// Rows hold on 1, 4 and 64 workers.
fn all_hold_on_workers<R: Threads + Wait + Sync + AllocGlobal + Abort>(
    rt: &R,
    rows: &[Row],
) -> Result<(), Fail> {
    for row in rows {
        for workers in ["1", "4", "64"] {
            holds_on(rt, workers, row)?;
        }
    }
    Ok(())
}

/// A row holds on so many workers, and its recorded schedule is replayed.
fn holds_on<R: Threads + Wait + Sync + AllocGlobal + Abort>(
    rt: &R,
    workers: &str,
    row: &Row,
) -> Result<(), Fail> {
    let words = [
        "--workers",
        workers,
        "--steps",
        row.steps,
        "--record",
        "kept",
        "script",
    ];
    let left = call(rt, &words, row.script, b"", b"", NEVER)?;
    assert_eq!(rt; left.status.as_str(), row.status);
    assert_eq!(rt; left.output.as_slice(), row.output);
    assert_eq!(rt; left.errors.as_slice(), row.errors);
    let Some(kept) = &left.kept else {
        return Err(Fail::from("no schedule was kept"));
    };
    if let Some(schedule) = row.schedule {
        assert_eq!(rt; kept.as_slice(), schedule);
    }
    is_replayed(rt, row, &left, kept)
}

/// The recorded schedule is replayed to the same bytes, and to the same end if the run was over.
fn is_replayed<R: Threads + Wait + Sync + AllocGlobal + Abort>(
    rt: &R,
    row: &Row,
    left: &Left,
    kept: &[u8],
) -> Result<(), Fail> {
    let again = call(rt, &WORDS, row.script, kept, b"", NEVER)?;
    let (status, errors) = if row.status == OVER.status {
        (row.status, row.errors)
    } else {
        ("schedule ended", b"tclthread: schedule ended\n".as_slice())
    };
    assert_eq!(rt; again.status.as_str(), status);
    assert_eq!(rt; again.schedule.len(), left.schedule.len());
    assert_eq!(rt; again.output.as_slice(), row.output);
    assert_eq!(rt; again.errors.as_slice(), errors);
    Ok(())
}

/// The most turns that a worker is held for.
const MOST_TURNS: u64 = 100_000_000;

/// A gate that holds the first slice of thread 2 until one of thread 1 has gone that another worker passed meanwhile:
/// then it met both threads at once.
#[derive(Drop)]
struct Meeting {
    // The worker that is held or was, from 1, and 0 before that.
    held: AtomicU64,
    // 1 from when the other slice has gone.
    met: AtomicU64,
    // 1 if the turns ran out before.
    failed: AtomicU64,
}

impl Meeting {
    fn new() -> Self {
        Meeting {
            held: AtomicU64::new(0),
            met: AtomicU64::new(0),
            failed: AtomicU64::new(0),
        }
    }

    /// Holds the worker.
    fn hold(&self) {
        for _ in 0..MOST_TURNS {
            if self.met.load(SeqCst) == 1 {
                return;
            }
            spin_loop();
        }
        self.failed.store(1, SeqCst);
    }
}

impl Gate for Meeting {
    fn pass<W: Slice>(&self, worker: u32, thread: u32, slice: &mut W) {
        let held = self.held.load(SeqCst);
        if thread == 2 && held == 0 {
            self.held.store(u64::from(worker), SeqCst);
            self.hold();
        }
        slice.go();
        if thread == 1 && held != 0 && held != u64::from(worker) {
            self.met.store(1, SeqCst);
        }
    }
}

/// A gate that holds each worker with a thread other than main, until it holds so many workers at once.
#[derive(Drop)]
struct Gathering {
    count: u32,
    // A bit for each worker that came.
    workers: AtomicU64,
    // 1 if the turns ran out before.
    failed: AtomicU64,
}

impl Gathering {
    fn of(count: u32) -> Self {
        Gathering {
            count,
            workers: AtomicU64::new(0),
            failed: AtomicU64::new(0),
        }
    }

    /// How many workers came.
    fn came(&self) -> u32 {
        self.workers.load(SeqCst).count_ones()
    }

    /// Holds the worker.
    fn hold(&self) {
        for _ in 0..MOST_TURNS {
            if self.came() >= self.count {
                return;
            }
            spin_loop();
        }
        self.failed.store(1, SeqCst);
    }
}

impl Gate for Gathering {
    fn pass<W: Slice>(&self, worker: u32, thread: u32, slice: &mut W) {
        if thread != 1 {
            let _ = self.workers.fetch_or(1 << (worker % 64), SeqCst);
            self.hold();
        }
        slice.go();
    }
}

/// What a run of a script on so many workers leaves, which go through this gate.
fn through_gate<R: Threads + Wait + Sync + AllocGlobal, G: Gate + Sync>(
    rt: &R,
    workers: &str,
    gate: &G,
    script: &[u8],
) -> Result<Left, Fail> {
    let alloc = rt.alloc();
    let words = owned(alloc, &["--workers", workers, "script"])?;
    let mut files = MemoryFiles::new(alloc, Vec::new(alloc), Vec::new(alloc));
    files.add("script", script)?;
    let input = MemorySource::new(Vec::new(alloc), Vec::new(alloc));
    let output = MemorySink::new(alloc, Vec::new(alloc));
    let errors = MemorySink::new(alloc, Vec::new(alloc));
    let ended = session(rt, alloc, &words, &mut files, input, output, errors, gate);
    left_of(alloc, ended, None)
}

#[test]
fn two_slices_at_once(rt: HostRuntime) -> Result<(), Fail> {
    let gate = Meeting::new();
    let script = b"thread::create {tsv::set a go 1}\nwhile {![tsv::exists a go]} {}\nputs met\n";
    let left = through_gate(&rt, "2", &gate, script)?;
    assert_eq!(rt; left.status.as_str(), "done 0");
    assert_eq!(rt; left.output.as_slice(), b"met\n".as_slice());
    assert_eq!(rt; gate.failed.load(SeqCst), 0);
    assert_eq!(rt; gate.met.load(SeqCst), 1);
    Ok(())
}

/// Four threads, each of which adds one to a number.
const FOUR: &[u8] =
    b"for {set i 0} {$i < 4} {incr i} {lappend ids [thread::create -joinable {tsv::incr a n}]}
foreach id $ids {thread::join $id}
puts [tsv::get a n]
";

#[test]
fn four_workers_carry_four_threads_at_once(rt: HostRuntime) -> Result<(), Fail> {
    let gate = Gathering::of(4);
    let left = through_gate(&rt, "4", &gate, FOUR)?;
    assert_eq!(rt; left.status.as_str(), "done 0");
    assert_eq!(rt; left.output.as_slice(), b"4\n".as_slice());
    assert_eq!(rt; gate.failed.load(SeqCst), 0);
    assert_eq!(rt; gate.came(), 4);
    Ok(())
}
