//! The language: a loop that asks for numbers and keeps the greatest, and events that are served by it.

use std::alloc::Global;
use tt_evaluation::{Language, Move};
use tt_text::NoMemory;

/// A job.
#[derive(Clone, Copy, Debug, PartialEq, Eq)]
pub enum Job {
    /// Asks for so many numbers; the outcome is the greatest of them and of the state.
    Greatest(u64),
    /// Serves a post, by the greatest of so many numbers, which is delivered.
    Event(u64, u64),
    /// Does that, while it serves another post.
    Nested(u64, u64, u64),
    /// The greatest of so many numbers, delivered.
    Delivery(u64),
}

/// What is asked.
#[derive(Clone, Copy, Debug, PartialEq, Eq)]
pub enum Want {
    /// A number.
    Number,
    /// That this number is delivered.
    Deliver(u64),
}

/// What waits for an outcome.
#[derive(Clone, Copy, Debug, PartialEq, Eq)]
pub enum Frame {
    /// The outcome is that of the call.
    Same,
    /// The outcome is delivered.
    Delivers,
}

/// What waits for an answer.
#[derive(Clone, Copy, Debug, PartialEq, Eq)]
pub enum Asking {
    /// A number, after which so many are asked for.
    Counts(u64),
    /// The delivery of this number.
    Delivers(u64),
}

/// The language.
pub struct Greatest;

impl Language for Greatest {
    type Job = Job;

    type Want = Want;

    type Got = u64;

    type Outcome = u64;

    type State = u64;

    type Frame = Frame;

    type Asking = Asking;

    ghost use Rattle.example_language.specs.Greatest.{after, on_got, plan};

    ghost plan = { plan };

    ghost after = { after };

    ghost on_got = { on_got };

    fn begin(
        _alloc: Global,
        job: Job,
        state: &mut u64,
    ) -> Result<Move<Job, Want, u64, Frame, Asking>, NoMemory> {
        Ok(match job {
            Job::Greatest(0) => Move::Done(*state),
            Job::Greatest(n) => Move::Ask(Want::Number, Asking::Counts(n - 1)),
            Job::Event(post, n) => Move::Call(Some(post), Job::Delivery(n), Frame::Same),
            Job::Nested(post, inner, n) => Move::Call(
                Some(post),
                Job::Event(inner, n),
                Frame::Same,
            ),
            Job::Delivery(n) => Move::Call(None, Job::Greatest(n), Frame::Delivers),
        })
    }

    fn go_on(
        _alloc: Global,
        frame: Frame,
        outcome: u64,
        _state: &mut u64,
    ) -> Result<Move<Job, Want, u64, Frame, Asking>, NoMemory> {
        Ok(match frame {
            Frame::Same => Move::Done(outcome),
            Frame::Delivers => Move::Ask(Want::Deliver(outcome), Asking::Delivers(outcome)),
        })
    }

    fn take(
        _alloc: Global,
        asking: Asking,
        got: u64,
        state: &mut u64,
    ) -> Result<Move<Job, Want, u64, Frame, Asking>, NoMemory> {
        Ok(match asking {
            Asking::Counts(n) => {
                *state = (*state).max(got);
                Move::Goto(Job::Greatest(n))
            }
            Asking::Delivers(outcome) => Move::Done(outcome),
        })
    }
}
