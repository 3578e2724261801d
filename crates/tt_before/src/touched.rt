use tt_text::{Text, Texts};

/// What a command touches of a shared array (tsv(n)).
#[derive(Debug, Drop)]
pub struct Touched {
    /// The name of the array.
    pub array: Text,
    /// Its keys; none for the whole array.
    pub keys: Option<Texts>,
    /// Whether it writes.
    pub writes: bool,
}
