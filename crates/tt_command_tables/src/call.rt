use tt_calls::{Boxed, Request};
use tt_text::Text;

/// What the words of a command come to, if its name is one of `thread::`, `tsv::` or `tpool::`, or one of puts(n),
/// gets(n), eof(n), close(n), chan(n), vwait(n), update(n) and exit(n).
#[derive(Debug, Drop)]
pub enum Call {
    /// The name is another one.
    Other,
    /// The command's error; nothing is asked.
    Bad(Text),
    /// Nothing is asked.
    Here(Here),
    /// What is asked, and what follows the reply.
    Ask { request: Boxed<Request>, then: Then },
}

/// What a command does that asks nothing.
#[derive(Debug, Drop)]
pub enum Here {
    /// It has this answer.
    Local(Text),
    /// It evaluates this script at global level, and sets this variable, if there is one, to the result (thread(n),
    /// thread::send to oneself).
    Direct(Text, Option<Text>),
}

/// What follows the reply.
#[derive(Debug, Drop)]
pub enum Then {
    /// The command has its answer.
    Value,
    /// This variable gets it, and the command answers whether there was one, or how long it is (tsv(n), tsv::get;
    /// gets(n); tpool(n), tpool::cancel).
    Store(Text),
    /// The result of the post is waited for; this variable, if there is one, gets it (thread(n), thread::send).
    AwaitResult(Option<Text>),
    /// The end of this thread is waited for, or of the one that the reply names (thread(n), thread::release,
    /// thread::join).
    AwaitEnd(Option<u32>),
    /// The move of the channel is waited for (thread(n), thread::transfer).
    AwaitMove,
    /// The wait for the condition is ended, and the mutex taken again (thread(n), thread::cond wait).
    Retake,
    /// This script is evaluated while the array or the mutex is held (tsv(n), tsv::lock; thread(n), thread::eval).
    Held(Text),
    /// Events are served up to this goal.
    Serve(Goal),
}

/// Up to when events are served.
#[derive(Debug, Drop)]
pub enum Goal {
    /// This global variable was written (vwait(n)).
    Written(Text),
    /// There is no event (update(n)).
    Idle,
    /// The thread is to stop (thread(n), thread::wait).
    Stopped,
    /// Jobs of a pool are done; this variable, if there is one, gets those that aren't (tpool(n), tpool::wait).
    Pool { store: Option<Text> },
}
