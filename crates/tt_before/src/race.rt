use tt_text::Text;

/// Two steps of different threads that touch the same of a shared array, one of them writing, and that nothing orders.
#[derive(Debug, Drop)]
pub struct Race {
    /// The number of the first one's entry, counted from 1.
    pub first: u64,
    /// The number of the second one's entry.
    pub second: u64,
    /// The name of the array.
    pub array: Text,
    /// The first key of the second one that both touch; none if one of them touches the whole array.
    pub key: Option<Text>,
}

/// The races of a run.
#[derive(Debug, Drop)]
pub struct Races {
    /// The first hundred, by their second entry and then by their first.
    pub first: Vec<Race>,
    /// How many there are.
    pub count: u64,
}
