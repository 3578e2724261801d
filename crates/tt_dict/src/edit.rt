use tt_pairs::Dictionary;
use tt_text::Text;

/// What becomes of the last key of a path.
#[derive(Debug, Drop)]
pub(crate) enum Edit {
    /// It gets this value.
    Put(Text),
    /// It is taken out.
    Remove,
}

/// A dictionary, and the key in it under which the next one stands.
#[derive(Debug, Drop)]
pub(crate) struct Level {
    pub(crate) pairs: Dictionary,
    pub(crate) key: Text,
}

/// What a change does to the outermost dictionary.
#[derive(Debug, Drop)]
pub(crate) enum Step {
    /// It stays as it is.
    Stays,
    /// This key gets this value.
    Puts(Text, Text),
    /// This key is taken out.
    Removes(Text),
}
