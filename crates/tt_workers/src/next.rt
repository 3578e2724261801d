use crate::boxed_interp::BoxedInterp;
use tt_calls::Reply;

/// A thread that is handed out: its interpreter is to be resumed with this.
#[derive(Debug, Drop)]
pub struct Task {
    /// The thread's number, from 1.
    pub thread: u32,
    /// Its interpreter.
    pub interp: BoxedInterp,
    /// The reply to what it asks, or nothing if it has not begun.
    pub reply: Option<Reply>,
}

/// How a thread's resumption went.
#[derive(Clone, Copy, Debug, PartialEq, Eq)]
pub enum Resumption {
    /// It halts at what it asks next.
    Halted,
    /// Memory was refused, and its interpreter is only fit to be dropped.
    OutOfMemory,
}

/// A thread that comes back.
#[derive(Debug, Drop)]
pub struct Done {
    /// The thread's number, from 1.
    pub thread: u32,
    /// Its interpreter, as it was left.
    pub interp: BoxedInterp,
    /// How its resumption went.
    pub resumption: Resumption,
}

/// What a worker does next.
#[derive(Debug, Drop)]
pub enum Next {
    /// It resumes this thread.
    Run(Task),
    /// It waits for another worker's turn.
    Rest,
    /// It ends.
    Over,
}

impl Next {
    /// Whether it is a thread that has not begun.
    pub(crate) fn is_fresh(&self) -> bool {
        matches!(self, Next::Run(task) if task.reply.is_none())
    }
}

/// How a run ends.
#[derive(Clone, Copy, Debug, PartialEq, Eq)]
pub enum RunEnd {
    /// The run is over, with this exit code.
    Over(u8),
    /// No thread can take a step.
    Stuck,
    /// The most steps were taken.
    Limit,
    /// Standard input failed.
    Read,
    /// Standard output or standard error failed.
    Write,
    /// Memory was refused.
    Memory,
}
