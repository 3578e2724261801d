use crate::{Boxed, ChanCall, LockCall, Outcome, PoolCall, TsvCall};
use tt_text::{Text, Texts};

/// Whether the sender of a script waits for its result (thread(n), thread::send).
#[derive(Clone, Copy, Debug, PartialEq, Eq)]
pub enum Mode {
    /// It waits.
    Waits,
    /// It goes on, as with `-async`.
    Later,
}

/// What a thread asks of what the threads share. Each is answered in one step.
#[derive(Debug, Drop)]
pub enum Request {
    /// Write the bytes to standard output (puts(n)).
    WriteOut {
        text: Text,
    },
    /// Write the bytes to standard error (puts(n)).
    WriteErr {
        text: Text,
    },
    /// Read a line of standard input (gets(n)).
    ReadLine,
    /// Whether standard input has ended (eof(n)).
    StdinEof,
    /// Make a thread that begins with the script (thread(n), thread::create).
    Create {
        joinable: bool,
        preserved: bool,
        script: Text,
    },
    /// Hold a thread, the empty id standing for the asker (thread(n), thread::preserve).
    Preserve {
        id: Text,
    },
    /// Let go of a thread, the empty id standing for the asker (thread(n), thread::release).
    Release {
        id: Text,
    },
    /// The ids of the linked threads (thread(n), thread::names).
    Names,
    /// Whether a thread is linked (thread(n), thread::exists).
    Exists {
        id: Text,
    },
    /// Claim the exit code of a joinable thread (thread(n), thread::join).
    Join {
        id: Text,
    },
    /// Wait for the end of a thread.
    AwaitEnd {
        thread: u32,
    },
    /// Options of a thread, as names, one name, or names with values (thread(n), thread::configure).
    Configure {
        id: Text,
        words: Texts,
    },
    /// Set the procedure that errors of threads are reported to, or ask for it (thread(n), thread::errorproc).
    ErrorProc {
        name: Option<Text>,
    },
    /// Send a script to a thread, to the front of its queue with `head` (thread(n), thread::send).
    Send {
        id: Text,
        script: Text,
        mode: Mode,
        variable: Option<Text>,
        head: bool,
    },
    /// Wait for the result of the post of this number.
    Await {
        n: u64,
    },
    /// Wait for an event, and take it out of the queue (thread(n), thread::wait; vwait(n)).
    Take,
    /// Take an event out of the queue, if there is one (update(n)).
    TakeReady,
    /// Hand the result of the post of this number to its sender.
    Deliver {
        n: u64,
        outcome: Outcome,
    },
    /// Report the trace of an error; a plain one goes to standard error.
    Report {
        trace: Text,
        plain: bool,
    },
    /// Send a script to all other threads (thread(n), thread::broadcast).
    Broadcast {
        script: Text,
    },
    /// A call on shared variables (tsv(n)).
    Tsv(Boxed<TsvCall>),
    /// A call on a lock (thread(n), thread::mutex, thread::rwmutex, thread::cond, thread::eval).
    Lock(Boxed<LockCall>),
    /// A call on a pool of workers (tpool(n)).
    Pool(Boxed<PoolCall>),
    /// A call on a channel (chan(n); thread(n), thread::transfer).
    Chan(Boxed<ChanCall>),
    /// Add a timer of a script: after so many milliseconds the script comes as an event (after(n)).
    AddTimer {
        after: u64,
        script: Text,
    },
    /// Take back a timer of a script, or its event if it has come (after(n), after cancel).
    DropTimer {
        number: u64,
    },
    /// Begin to sleep for so many milliseconds (after(n)).
    Sleep {
        after: u64,
    },
    /// Wait for the end of that sleep.
    AwaitTime,
    /// Cancel what a thread evaluates, with `unwind` up to its outermost script (thread(n), thread::cancel).
    Cancel {
        id: Text,
        unwind: bool,
    },
    /// Let others go on.
    Pause,
    /// End this thread with an exit code.
    End {
        code: i64,
    },
    /// End the run with an exit code (exit(n)).
    Exit {
        code: i64,
    },
}
