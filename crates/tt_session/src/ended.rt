use crate::status::{End, Status};
use tt_schedule::Schedule;

/// How a run finished, and what it leaves.
#[derive(Debug, Drop)]
pub struct Finish<S, K, E> {
    /// How it ended.
    pub end: End,
    /// The steps that were taken, in order.
    pub schedule: Schedule,
    /// Standard input.
    pub input: S,
    /// Standard output.
    pub output: K,
    /// Standard error.
    pub errors: E,
}

/// What a call of the program leaves.
#[derive(Debug, Drop)]
pub struct Ended<S, K, E> {
    /// How it ended.
    pub status: Status,
    /// The steps that were taken, in order.
    pub schedule: Schedule,
    /// Standard input.
    pub input: S,
    /// Standard output.
    pub output: K,
    /// Standard error.
    pub errors: E,
}

/// What a call that takes no runtime leaves.
#[derive(Debug, Drop)]
pub enum Alone<S, K, E> {
    /// It did the whole work.
    Ended(Ended<S, K, E>),
    /// The words want workers; the devices, with nothing done.
    Plain(S, K, E),
}
