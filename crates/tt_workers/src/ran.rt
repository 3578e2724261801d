use crate::next::RunEnd;
use tt_schedule::Schedule;

/// What a run leaves.
#[derive(Debug, Drop)]
pub struct Ran<S, K, E> {
    /// How it ended.
    pub end: RunEnd,
    /// The steps that were taken.
    pub schedule: Schedule,
    /// Standard input.
    pub input: S,
    /// Standard output.
    pub output: K,
    /// Standard error.
    pub errors: E,
}
