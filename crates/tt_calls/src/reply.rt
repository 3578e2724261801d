ghost use Rattle.std.specs.Prelude.{◌≡◌};
ghost use Rattle.tt_calls.specs.Fitting.{shape_of};

use crate::{Event, Outcome};
use tt_text::Text;

/// The answer to a request.
#[derive(Debug, Drop)]
pub enum Reply {
    /// It is done, and there is no answer.
    Go,
    /// The command's answer.
    Value(Text),
    /// The error of the command.
    Refused(Text),
    /// Whether there is such an element, and its value, which is empty if there is none.
    Found(bool, Text),
    /// The number of the post.
    Posted(u64),
    /// The thread that is to be waited for.
    Waits(u32),
    /// What the other side's script came to.
    Answer(Outcome),
    /// The other side has ended.
    Died,
    /// The event that was taken.
    Event(Event),
    /// There was no event.
    NoEvent,
    /// It was handed over; whether the thread is to stop.
    Served(bool),
    /// A line, without its newline.
    Line(Text),
    /// There is no further line.
    LineEnd,
    /// A job: its number, its script, and whether it is detached.
    Job(u64, Text, bool),
    /// There is no further job for this worker.
    JobStop,
    /// Two lists, as texts.
    Lists(Text, Text),
    /// The thread was cancelled; whether up to its outermost script.
    Cancelled(bool),
}

/// What a call on a part of the shared state gives.
#[derive(Debug, Drop)]
pub enum Step {
    /// The thread has to wait; nothing was done.
    Wait,
    /// It was done.
    Reply(Reply),
}

/// Which of its variants a reply is.
#[derive(Clone, Copy, Debug, PartialEq, Eq)]
pub enum Shape {
    Go,
    Value,
    Refused,
    Found,
    Posted,
    Waits,
    Answer,
    Died,
    Event,
    NoEvent,
    Served,
    Line,
    LineEnd,
    Job,
    JobStop,
    Lists,
    Cancelled,
}

impl Reply {
    /// Which of its variants it is.
    pub fn shape(&self) -> Shape
        ensures shape { result ≡ shape_of self.now }
    {
        match self {
            Reply::Go => Shape::Go,
            Reply::Value(_) => Shape::Value,
            Reply::Refused(_) => Shape::Refused,
            Reply::Found(_, _) => Shape::Found,
            Reply::Posted(_) => Shape::Posted,
            Reply::Waits(_) => Shape::Waits,
            Reply::Answer(_) => Shape::Answer,
            Reply::Died => Shape::Died,
            Reply::Event(_) => Shape::Event,
            Reply::NoEvent => Shape::NoEvent,
            Reply::Served(_) => Shape::Served,
            Reply::Line(_) => Shape::Line,
            Reply::LineEnd => Shape::LineEnd,
            Reply::Job(_, _, _) => Shape::Job,
            Reply::JobStop => Shape::JobStop,
            Reply::Lists(_, _) => Shape::Lists,
            Reply::Cancelled(_) => Shape::Cancelled,
        }
    }
}
