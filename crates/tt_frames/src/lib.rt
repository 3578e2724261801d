//! How a thread evaluates its scripts: what each command does, up to what it wants from the interpreter that hosts it,
//! as plans; and a stack that stops at each want and goes on with what it gets (Tcl(n), expr(n), thread(n)).
#![tactic(auto)]

mod calls;
mod commands;
mod control;
mod events;
mod expression;
mod expressions;
mod held;
mod job;
mod kept;
mod language;
mod loops;
mod nesting;
mod program;
mod rest;
mod serving;
mod stack;
mod starts;
mod state;
mod storing;
mod waiting;
mod workers;

pub use expression::Expression;
pub use expressions::{ending_for, first_of};
pub use job::{
    Asking, Awaits, BegunJob, CommandFrame, Frame, Hold, Job, JobsWait, Loop, Purpose, Until, Work,
    Worker, WorkerAsking, WorkerFrame,
};
pub use kept::Made;
pub use language::Tcl;
pub use program::{Program, Step};
pub use rest::Rest;
pub use stack::{Stack, begin, turn};
pub use state::{Counts, State, Unit};
pub use tt_outcomes::{Body, Got, Want};
