use crate::Body;
use tt_calls::{Outcome, Reply};
use tt_text::Text;
use tt_value::Values;

/// What an evaluation gets for what it wanted.
#[derive(Debug, Drop)]
pub enum Got {
    /// What it came to.
    Value(Outcome),
    /// The words, which are those of a command that the evaluation itself does.
    Own { words: Values },
    /// A text that is to be evaluated.
    RunBody { body: Body, text: Text },
    /// The reply to a request.
    Reply(Reply),
}
