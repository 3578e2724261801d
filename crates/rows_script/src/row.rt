use std::alloc::Global;
use tt_text::{NoMemory, Text};

/// A row of a table.
#[derive(Drop)]
pub struct Row {
    /// What it shows.
    pub name: Text,
    /// How many units the script may spend.
    pub limit: u64,
    /// The script.
    pub script: Text,
    /// How it has to end.
    pub wanted: Came,
    /// What the next line belongs to.
    pub part: Part,
}

/// What a script comes to.
#[derive(Drop)]
pub struct Came {
    /// What is written on standard output.
    pub out: Text,
    /// What is written on standard error.
    pub err: Text,
    /// The exit code, in decimal.
    pub code: Text,
}

/// What lines belong to.
#[derive(Clone, Copy)]
pub enum Part {
    Script,
    Out,
    Err,
}

impl Row {
    /// A row that has its name alone.
    pub fn new(alloc: Global, name: &[u8]) -> Result<Self, NoMemory> {
        Ok(Row {
            name: Text::from_bytes(alloc, name)?,
            limit: 1 << 62,
            script: Text::new(alloc),
            wanted: Came::new(alloc),
            part: Part::Script,
        })
    }

    /// Adds a line to the part that it belongs to.
    pub fn push(&mut self, line: &[u8]) -> Result<(), NoMemory> {
        let text = match self.part {
            Part::Script => &mut self.script,
            Part::Out => &mut self.wanted.out,
            Part::Err => &mut self.wanted.err,
        };
        text.push_bytes(line)?;
        text.push_bytes(b"\n")
    }
}

impl Came {
    /// Nothing is written.
    pub fn new(alloc: Global) -> Self {
        Came {
            out: Text::new(alloc),
            err: Text::new(alloc),
            code: Text::new(alloc),
        }
    }

    /// Whether both are the same.
    pub fn is(&self, other: &Came) -> bool {
        self.out == other.out && self.err == other.err && self.code == other.code
    }
}
