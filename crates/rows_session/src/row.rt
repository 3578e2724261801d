use std::alloc::Global;
use tt_text::{NoMemory, Text, Texts};

/// The words of a row that names none.
const WORDS: [&[u8]; 3] = [b"--replay", b"schedule", b"script"];

/// A row of a table.
#[derive(Drop)]
pub(crate) struct Row {
    /// What it shows.
    pub(crate) name: Text,
    /// What its call begins with.
    pub(crate) words: Texts,
    pub(crate) script: Option<Text>,
    pub(crate) files: Vec<File>,
    pub(crate) input: Text,
    pub(crate) fails: Fails,
    pub(crate) greatest: Vec<Counts>,
    /// What it comes to.
    pub(crate) wanted: Came,
}

/// A file.
#[derive(Drop)]
pub(crate) struct File {
    pub(crate) name: Text,
    pub(crate) bytes: Text,
}

/// The calls of each device that fail, counted from 1.
#[derive(Drop)]
pub(crate) struct Fails {
    pub(crate) reads: Vec<u64>,
    pub(crate) writes: Vec<u64>,
    pub(crate) input: Vec<u64>,
    pub(crate) output: Vec<u64>,
    pub(crate) errors: Vec<u64>,
}

/// A device that counts its faults.
#[derive(Clone, Copy, PartialEq, Eq)]
pub(crate) enum Counts {
    Files,
    Input,
    Output,
    Errors,
}

/// What a call comes to.
#[derive(Drop)]
pub(crate) struct Came {
    /// What it writes on standard output.
    pub(crate) out: Text,
    /// What it writes on standard error.
    pub(crate) err: Text,
    /// The lines of the schedule, without the first.
    pub(crate) steps: Text,
    /// The exit code and the status.
    pub(crate) end: Text,
    /// The files that it made or changed.
    pub(crate) files: Vec<File>,
}

impl Row {
    /// A row that has its name alone.
    pub(crate) fn new(alloc: Global, name: &[u8]) -> Result<Self, NoMemory> {
        Ok(Row {
            name: Text::from_bytes(alloc, name)?,
            words: replay_words(alloc)?,
            script: None,
            files: Vec::new(alloc),
            input: Text::new(alloc),
            fails: Fails {
                reads: Vec::new(alloc),
                writes: Vec::new(alloc),
                input: Vec::new(alloc),
                output: Vec::new(alloc),
                errors: Vec::new(alloc),
            },
            greatest: Vec::new(alloc),
            wanted: Came::new(alloc),
        })
    }

    /// Adds a line to the script.
    pub(crate) fn push_line(&mut self, alloc: Global, line: &[u8]) -> Result<(), NoMemory> {
        match &mut self.script {
            Some(script) => {
                script.push_bytes(b"\n")?;
                script.push_bytes(line)?;
            }
            None => self.script = Some(Text::from_bytes(alloc, line)?),
        }
        Ok(())
    }
}

fn replay_words(alloc: Global) -> Result<Texts, NoMemory> {
    let mut words = Texts::new(alloc);
    for word in WORDS {
        words.push(Text::from_bytes(alloc, word)?)?;
    }
    Ok(words)
}

impl Came {
    /// Nothing.
    pub(crate) fn new(alloc: Global) -> Self {
        Came {
            out: Text::new(alloc),
            err: Text::new(alloc),
            steps: Text::new(alloc),
            end: Text::new(alloc),
            files: Vec::new(alloc),
        }
    }

    /// Whether both are the same.
    pub(crate) fn is(&self, other: &Came) -> bool {
        self.out == other.out
            && self.err == other.err
            && self.steps == other.steps
            && self.end == other.end
            && are_same(&self.files, &other.files)
    }
}

fn are_same(files: &[File], others: &[File]) -> bool {
    files.len() == others.len()
        && files.iter().zip(others).all(|(file, other)| file.name == other.name
            && file.bytes == other.bytes)
}
