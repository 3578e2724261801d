use tt_text::{Text, Texts};

/// A change of a dictionary (dict(n)). A path is the keys inwards, each in the dictionary that the keys before it name;
/// a path of no keys changes nothing.
#[derive(Debug, Drop)]
pub enum Change {
    /// The last key of the path gets this value. A missing key before it gets a dictionary.
    Set { path: Texts, value: Text },
    /// The last key of the path is taken out, if it is there.
    Unset { path: Texts },
    /// The number under the key grows by this one; a missing one counts as 0.
    Incr { key: Text, by: i64 },
    /// The text under the key gets these at its end; a missing one counts as empty.
    Append { key: Text, pieces: Texts },
    /// The list under the key gets these items at its end; a missing one counts as empty.
    Lappend { key: Text, items: Texts },
}
