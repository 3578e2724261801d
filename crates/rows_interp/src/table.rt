//! The lines of a row.

use crate::row::Row;
use crate::run::run;
use rows_reader::{number_of, shown};
use std::alloc::Global;
use tt_text::Text;

/// What a line of a table says.
#[derive(Clone, Copy)]
enum Line<'a> {
    Thread(&'a [u8]),
    Limit(&'a [u8]),
    Asked(&'a [u8]),
    Reply(&'a [u8]),
    Open,
    Script,
}

impl rows_reader::Row for Row {
    fn named(alloc: Global, name: &[u8]) -> anyhow::Result<Self> {
        let row = Row::new(alloc, name)?;
        Ok(row)
    }

    fn read_line(&mut self, alloc: Global, line: &[u8]) -> anyhow::Result<()> {
        match kind_of(line) {
            Line::Thread(number) => self.me = number_of(number)?,
            Line::Limit(number) => self.limit = u64::from(number_of(number)?),
            Line::Asked(asked) => self.push_asked(alloc, asked)?,
            Line::Reply(reply) => self.set_reply(Text::from_bytes(alloc, reply)?)?,
            Line::Open => self.open = true,
            Line::Script => self.push_line(line)?,
        }
        Ok(())
    }

    fn holds(&self, rt: &impl Print, alloc: Global, _table: &str) -> anyhow::Result<bool> {
        match run(alloc, self)? {
            None => Ok(true),
            Some(came) => {
                println!(rt; "row: {}", shown(&self.name))?;
                println!(rt; "asked: {}", shown(&came))?;
                Ok(false)
            }
        }
    }
}

fn kind_of(line: &[u8]) -> Line {
    if let Some(number) = line.strip_prefix(b"%% thread ") {
        return Line::Thread(number);
    }
    if let Some(number) = line.strip_prefix(b"%% limit ") {
        return Line::Limit(number);
    }
    if let Some(asked) = line.strip_prefix(b"? ") {
        return Line::Asked(asked);
    }
    if let Some(reply) = line.strip_prefix(b"! ") {
        return Line::Reply(reply);
    }
    if line == b"...".as_slice() {
        return Line::Open;
    }
    Line::Script
}
