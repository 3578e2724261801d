//! Rows of bits.
ghost use Rattle.std.specs.Prelude.{◌≡◌, ◌≤◌, ◌*◌, length};

/// Marks between places: a row of bits for each place, in words of 64, the lowest bit first.
#[derive(Debug, Drop)]
pub(crate) struct Rows {
    /// How many places there are.
    pub(crate) count: usize,
    /// How many words a row has.
    pub(crate) width: usize,
    /// The rows, one after another.
    pub(crate) words: Vec<u64>,
    ghost filled: { length words.items ≡ count * width },
    ghost wide: { count ≤ 64 * width },
}
