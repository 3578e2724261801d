use crate::Change;
use tt_calls::Outcome;
use tt_pairs::Looping;
use tt_text::Text;

/// What the words of `dict` come to (dict(n)).
#[derive(Debug, Drop)]
pub enum DictCall {
    /// The command has ended.
    Done(Outcome),
    /// The dictionary of a variable is changed: what `change` makes of its value is its value then, and the answer.
    Variable { name: Text, change: Change },
    /// A body is evaluated for each pair.
    Loop(Looping),
}
