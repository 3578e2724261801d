use std::alloc::Global;
use tt_text::{NoMemory, Text};

/// A row of a table.
#[derive(Drop)]
pub(crate) struct Row {
    /// What it shows.
    pub(crate) name: Text,
    /// The number of the thread.
    pub(crate) me: u32,
    /// How many units it may spend.
    pub(crate) limit: u64,
    /// Its script.
    pub(crate) script: Vec<u8>,
    /// What is asked, in turn.
    pub(crate) exchanges: Vec<Exchange>,
    /// It ends while a reply is taken.
    pub(crate) open: bool,
}

/// What is asked, and what that is replied.
#[derive(Drop)]
pub(crate) struct Exchange {
    /// The request, as a list.
    pub(crate) asked: Text,
    /// The reply, as a list, or nothing.
    pub(crate) reply: Text,
}

impl Row {
    /// A row that has its name alone.
    pub(crate) fn new(alloc: Global, name: &[u8]) -> Result<Self, NoMemory> {
        Ok(Row {
            name: Text::from_bytes(alloc, name)?,
            me: 1,
            limit: 1 << 62,
            script: Vec::new(alloc),
            exchanges: Vec::new(alloc),
            open: false,
        })
    }

    /// Adds a line to the script.
    pub(crate) fn push_line(&mut self, line: &[u8]) -> Result<(), NoMemory> {
        self.script.extend_from_slice(line)?;
        self.script.push(b'\n')?;
        Ok(())
    }

    /// Adds what is asked next.
    pub(crate) fn push_asked(&mut self, alloc: Global, asked: &[u8]) -> Result<(), NoMemory> {
        let exchange = Exchange {
            asked: Text::from_bytes(alloc, asked)?,
            reply: Text::new(alloc),
        };
        self.exchanges.push(exchange)?;
        Ok(())
    }

    /// Says what is replied to what was asked last.
    pub(crate) fn set_reply(&mut self, reply: Text) -> anyhow::Result<()> {
        match self.exchanges.last_mut() {
            Some(exchange) => {
                exchange.reply = reply;
                Ok(())
            }
            None => anyhow::bail!("a reply to nothing"),
        }
    }

    /// The lines of the script, with no newline after the last.
    pub(crate) fn text(&self) -> &[u8] {
        match self.script.as_slice() {
            [text @ .., b'\n'] => text,
            text => text,
        }
    }
}
