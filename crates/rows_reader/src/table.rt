use std::alloc::Global;

/// How many rows there are, and how many of them hold.
#[derive(Clone, Copy)]
pub struct Tally {
    pub rows: u32,
    pub held: u32,
}

impl Tally {
    /// No rows.
    pub fn new() -> Self {
        Tally { rows: 0, held: 0 }
    }

    /// Adds a row.
    pub fn count(&mut self, holds: bool) {
        self.add(Tally {
            rows: 1,
            held: u32::from(holds),
        });
    }

    /// Adds those of another table.
    pub fn add(&mut self, other: Tally) {
        self.rows = self.rows.saturating_add(other.rows);
        self.held = self.held.saturating_add(other.held);
    }
}

/// A row of a table. It begins with a line `== NAME`, and the lines after it say the rest.
pub trait Row: Drop {
    /// A row that has its name alone.
    fn named(alloc: Global, name: &[u8]) -> anyhow::Result<Self>;

    /// Reads a line after the first.
    fn read_line(&mut self, alloc: Global, line: &[u8]) -> anyhow::Result<()>;

    /// Whether it holds; if it doesn't, what came in its place is shown.
    fn holds(&self, rt: &impl Print, alloc: Global, table: &str) -> anyhow::Result<bool>;
}

/// Counts the rows of a table and those that hold, and shows the others.
pub fn tell_table<R: Row>(
    rt: &impl Print,
    alloc: Global,
    name: &str,
    text: &str,
) -> anyhow::Result<Tally> {
    let mut tally = Tally::new();
    for row in rows_of::<R>(alloc, text)?.as_slice() {
        tally.count(row.holds(rt, alloc, name)?);
    }
    Ok(tally)
}

fn rows_of<R: Row>(alloc: Global, text: &str) -> anyhow::Result<Vec<R>> {
    let mut rows = Vec::new(alloc);
    for line in text.lines() {
        let line = line.as_bytes();
        match (line.strip_prefix(b"== "), rows.last_mut()) {
            (Some(name), _) => rows.push(R::named(alloc, name)?)?,
            (None, Some(row)) => row.read_line(alloc, line)?,
            (None, None) => anyhow::bail!("a line before the first row"),
        }
    }
    Ok(rows)
}
