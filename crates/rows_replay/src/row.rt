use std::alloc::Global;
use tt_text::{NoMemory, Text, Texts};

/// A row of a table.
#[derive(Drop)]
pub(crate) struct Row {
    /// What it shows.
    pub(crate) name: Text,
    /// What its run begins with.
    pub(crate) script: Vec<u8>,
    pub(crate) arguments: Texts,
    pub(crate) input: Text,
    pub(crate) limit: u64,
    pub(crate) fails: Fails,
    /// The steps that its threads take; nothing if they take them in turn.
    pub(crate) schedule: Option<Vec<Steps>>,
    /// What it comes to.
    pub(crate) wanted: Came,
}

/// Which call of each device fails, counted from 1; 0 for none.
#[derive(Clone, Copy)]
pub(crate) struct Fails {
    pub(crate) input: u64,
    pub(crate) output: u64,
    pub(crate) errors: u64,
}

/// A thread's next steps.
#[derive(Clone, Copy)]
pub(crate) struct Steps {
    pub(crate) thread: u32,
    pub(crate) count: u32,
}

/// What a run comes to.
#[derive(Drop)]
pub(crate) struct Came {
    /// What it writes on standard output.
    pub(crate) out: Text,
    /// What it writes on standard error.
    pub(crate) err: Text,
    /// How it ends.
    pub(crate) end: Text,
}

impl Row {
    /// A row that has its name alone.
    pub(crate) fn new(alloc: Global, name: &[u8]) -> Result<Self, NoMemory> {
        Ok(Row {
            name: Text::from_bytes(alloc, name)?,
            script: Vec::new(alloc),
            arguments: Texts::new(alloc),
            input: Text::new(alloc),
            limit: 1 << 62,
            fails: Fails {
                input: 0,
                output: 0,
                errors: 0,
            },
            schedule: None,
            wanted: Came {
                out: Text::new(alloc),
                err: Text::new(alloc),
                end: Text::new(alloc),
            },
        })
    }

    /// Adds a line to the script.
    pub(crate) fn push_line(&mut self, line: &[u8]) -> Result<(), NoMemory> {
        self.script.extend_from_slice(line)?;
        self.script.push(b'\n')?;
        Ok(())
    }

    /// The lines of the script, with no newline after the last.
    pub(crate) fn text(&self) -> &[u8] {
        match self.script.as_slice() {
            [text @ .., b'\n'] => text,
            text => text,
        }
    }
}

impl Came {
    /// Whether both are the same.
    pub(crate) fn is(&self, other: &Came) -> bool {
        self.out == other.out && self.err == other.err && self.end == other.end
    }
}
