use tt_calls::Outcome;
use tt_outcomes::Body;
use tt_text::Text;

/// What a command comes to.
#[derive(Debug, Drop)]
pub enum Answer {
    /// It has ended.
    Outcome(Outcome),
    /// This text is to be evaluated; `Store::leave` ends it.
    Body { body: Body, text: Text },
    /// It is none of the commands here. Nothing has changed.
    Other,
}
