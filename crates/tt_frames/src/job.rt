//! What is evaluated, and what is kept of it while something else is.

use crate::program::Program;
use crate::rest::Rest;
use std::sync::Arc;
use tt_calls::{Boxed, Event, Start};
use tt_code::Running;
use tt_outcomes::{Body, Ending, Failure};
use tt_text::{Text, Texts};
use tt_value::{Value, Values};

/// A loop, from its next turn on.
#[derive(Debug, Drop)]
pub enum Loop {
    /// While the test is true (while(n)).
    While {
        test: Text,
        body: Text,
    },
    /// While the test is true, with a script after each body (for(n)).
    For {
        test: Text,
        next: Text,
        body: Text,
    },
    /// For so many of the values as there are names, turn after turn (foreach(n)).
    Foreach {
        names: Rest,
        values: Rest,
        body: Text,
    },
}

/// What an expression is evaluated for.
#[derive(Clone, Copy, Debug, PartialEq, Eq)]
pub enum Purpose {
    /// Its value (expr(n)).
    Value,
    /// Whether it is true: 1 or 0 (if(n), while(n), for(n)).
    Condition,
}

/// A wait for jobs of a pool (tpool(n), tpool::wait).
#[derive(Debug, Drop)]
pub struct JobsWait {
    /// The pool.
    pub pool: Text,
    /// The jobs.
    pub jobs: Texts,
    /// The variable for those that are pending.
    pub variable: Option<Text>,
}

/// Up to when events are served.
#[derive(Debug, Drop)]
pub enum Until {
    /// The global variable that was watched last was written (vwait(n)).
    Written,
    /// No event is ready (update(n)).
    Idle,
    /// The thread is to stop (thread(n), thread::wait).
    Stopped,
    /// Jobs of a pool are done (tpool(n), tpool::wait).
    Jobs(Boxed<JobsWait>),
}

/// What is held while a script is evaluated.
#[derive(Debug, Drop)]
pub enum Hold {
    /// The array of this name (tsv(n), tsv::lock).
    Array(Text),
    /// The mutex of this id; the empty one is that of `thread::eval` without `-lock` (thread(n), thread::eval).
    Mutex(Text),
}

/// A worker of a pool (tpool(n)).
#[derive(Debug, Drop)]
pub struct Worker {
    /// The pool.
    pub pool: Text,
    /// The pool's script for workers that end.
    pub exit: Text,
}

/// What a worker does next.
#[derive(Debug, Drop)]
pub enum Work {
    /// It takes a job.
    Takes(Boxed<Worker>),
    /// It ends.
    Over,
}

/// What is evaluated.
#[derive(Debug, Drop)]
pub enum Job {
    /// All that a thread does.
    Start(Start),
    /// A script, to the result of its last command.
    Script(Text),
    /// An expression.
    Expression(Purpose, Text),
    /// A command whose name is no procedure's and no command's of the host.
    Own(Values),
    /// A body in a nested evaluation.
    Nested(Body, Text),
    /// A script at global level.
    Global(Text),
    /// A loop.
    Loop(Loop),
    /// A turn of a loop, for which a unit is spent.
    Turn(Loop),
    /// The serving of events, one after the other.
    Serve(Until),
    /// The taking of an event, for which a unit is spent.
    Take(Until),
    /// An event that is served.
    Event(Event),
    /// A script while something is held.
    Held(Hold, Text),
    /// What a worker does next.
    Work(Work),
}

/// A command of a script, with its words on the way or with them all.
#[derive(Debug, Drop)]
pub struct CommandFrame {
    pub program: Arc<Program>,
    pub at: usize,
    pub running: Running,
}

/// A job that a worker has begun.
#[derive(Debug, Drop)]
pub struct BegunJob {
    pub worker: Boxed<Worker>,
    /// Its number.
    pub number: u64,
    /// Whether nobody asks for what it comes to (tpool(n), tpool::post).
    pub detached: bool,
}

/// What of a worker waits for the ending of a script.
#[derive(Debug, Drop)]
pub enum WorkerFrame {
    /// The pool's script for new workers or the one for workers that end, and what is done after it.
    Aside(Work),
    /// The script of a job.
    Runs(BegunJob),
}

/// What waits for the ending of a job.
#[derive(Debug, Drop)]
pub enum Frame {
    /// A command that needs a value for its words.
    Needs(CommandFrame),
    /// A command that is done elsewhere.
    Does(CommandFrame),
    /// An expression that needs a value.
    Expression(Purpose, Running),
    /// The body of a test, and what comes if it is false (if(n)).
    Clause(Text, Rest),
    /// The test of a loop.
    Test(Loop),
    /// The body of a loop.
    LoopBody(Loop),
    /// The script after a body (for(n)).
    LoopNext(Loop),
    /// The script before a loop (for(n)).
    LoopStart(Loop),
    /// The assignments of a turn: the names and values that are left, and the loop from its next turn on (foreach(n)).
    Assigns(Rest, Loop),
    /// A script that is caught, and the variable for its result (catch(n)).
    Catches(Option<Text>),
    /// A body that is left after it.
    Leaves(Body),
    /// A send to oneself, and the variable for its result (thread(n), thread::send).
    Sends(Option<Text>),
    /// A variable that was set, after which this is the result.
    Stores(Value),
    /// The script that a thread begins with.
    Reports,
    /// An event that is served, before the next one.
    Rounds(Until),
    /// The script of an event: the post, whether its sender gets an answer, and whether its error is reported plainly.
    Serves { n: u64, answer: bool, plain: bool },
    /// A global variable that an event set.
    Sets,
    /// A script while something is held.
    Held(Hold),
    /// A script of a worker.
    Works(WorkerFrame),
}

/// What follows the reply to a request.
#[derive(Debug, Drop)]
pub enum Awaits {
    /// The command has its answer.
    Value,
    /// This variable gets it.
    Store(Text),
    /// The result of the post is waited for, and this variable gets it.
    Result(Option<Text>),
    /// The outcome of a post: this variable gets it.
    Outcome(Option<Text>),
    /// The end of this thread is waited for.
    End(u32),
    /// The end of the thread that the reply names is waited for.
    NamedEnd,
    /// The command has this answer, if it isn't refused.
    Answers(Text),
    /// The move of this channel is waited for.
    Move(Text),
    /// The wait for this condition is ended, and this mutex taken again.
    Retake(Text, Text),
    /// This script is evaluated while this is held.
    Held(Hold, Text),
}

/// What of a worker waits for an answer.
#[derive(Debug, Drop)]
pub enum WorkerAsking {
    /// The job that was asked for.
    Takes(Boxed<Worker>),
    /// The telling of an error, the report of its trace, and what is done after it.
    Told(Text, Work),
    /// The telling of a job's error.
    JobTold(BegunJob, Failure),
    /// The handing in of what a job came to, and the trace that is reported then.
    Done(Boxed<Worker>, Option<Text>),
}

/// What waits for an answer.
#[derive(Debug, Drop)]
pub enum Asking {
    /// A frame that waits for what was wanted, as an ending.
    Wanted(Frame),
    /// A command whose words are run.
    Runs(CommandFrame),
    /// A command before which there is a pause.
    Paused(CommandFrame),
    /// A job that begins.
    Begins(Job),
    /// An ending that comes.
    Ends(Ending),
    /// The result of a script that was caught.
    Caught(Option<Text>, Text),
    /// The reply to a request.
    Replied(Awaits),
    /// The report of the error that a thread ends with.
    Reported(Text, Ending),
    /// Whether the variable that is watched was written.
    Seen,
    /// The event that was asked for.
    Taken(Until),
    /// The name and the value of a global variable that an event sets.
    Sets(Text, Text),
    /// The global level, which is left after a variable was set there, with how that ended.
    Left(Ending),
    /// The recording of the error of an event's script, and to whom it is reported next.
    Told {
        n: u64,
        answer: bool,
        plain: bool,
        failure: Failure,
    },
    /// What was handed over of an event.
    Handed,
    /// What a worker waits for.
    Works(WorkerAsking),
}
