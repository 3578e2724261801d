ghost use Rattle.std.specs.Prelude.{◌≡◌, ◌<◌, ◌^◌};
ghost use Rattle.tt_lists.specs.Places.{place_in};

/// A place in a list as an index names it (lindex(n)).
#[derive(Clone, Copy, Debug, PartialEq, Eq)]
pub enum Index {
    /// So many places after the first item, which is 0; before it if the number is negative.
    At(i64),
    /// So many places after the last item, which is 0; before it if the number is negative.
    FromEnd(i64),
}

impl Index {
    /// The place that it names in a list of so many items, from 0: less than 0 before the first item, and
    /// `length` or more after the last.
    pub fn place(self, length: usize) -> i128
        ensures place { result ≡ place_in self length }
    {
        match self {
            Index::At(number) => i128::from(number),
            Index::FromEnd(number) => length as i128 - 1 + i128::from(number),
        }
    }
}
