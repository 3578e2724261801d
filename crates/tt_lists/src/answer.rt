use tt_text::Text;

/// What a command on a list answers.
#[derive(Debug, Drop)]
pub enum ListAnswer {
    /// Its result.
    Made(Text),
    /// The text of its error.
    Bad(Text),
}
