use tt_text::{Text, Texts};

/// A call on shared variables (tsv(n)).
#[derive(Debug, Drop)]
pub enum TsvCall {
    /// Hold an array, so that no other thread uses it (tsv::lock).
    Hold { array: Text },
    /// End one hold of it.
    Unhold { array: Text },
    /// The words of a command, its name among them.
    Run { words: Texts },
}
