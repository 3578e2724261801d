use tt_text::{Text, Texts};

/// How a run begins (tclsh(n)).
#[derive(Debug, Drop)]
pub struct Setup {
    /// The script of the main thread.
    pub script: Text,
    /// The script's name, which is `argv0` in the main thread.
    pub name: Text,
    /// The arguments, whose list is `argv` and whose number is `argc` in the main thread.
    pub arguments: Texts,
    /// How many units each thread may spend.
    pub limit: u64,
}
