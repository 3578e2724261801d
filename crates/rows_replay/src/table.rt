//! The lines of a row, and what is shown of one that doesn't hold.

use crate::row::Row;
use crate::run::{Ran, run};
use crate::settings::set;
use rows_reader::shown;
use std::alloc::Global;
use tt_text::{NoMemory, Text};

/// What a line of a table says.
#[derive(Clone, Copy)]
enum Line<'a> {
    Setting(&'a [u8]),
    Out(&'a [u8], bool),
    Err(&'a [u8], bool),
    End(&'a [u8]),
    Script,
}

impl rows_reader::Row for Row {
    fn named(alloc: Global, name: &[u8]) -> anyhow::Result<Self> {
        let row = Row::new(alloc, name)?;
        Ok(row)
    }

    fn read_line(&mut self, alloc: Global, line: &[u8]) -> anyhow::Result<()> {
        match kind_of(line) {
            Line::Setting(setting) => set(alloc, self, setting)?,
            Line::Out(text, ends) => push(&mut self.wanted.out, text, ends)?,
            Line::Err(text, ends) => push(&mut self.wanted.err, text, ends)?,
            Line::End(end) => self.wanted.end = Text::from_bytes(alloc, end)?,
            Line::Script => self.push_line(line)?,
        }
        Ok(())
    }

    fn holds(&self, rt: &impl Print, alloc: Global, table: &str) -> anyhow::Result<bool> {
        let ran = run(alloc, self)?;
        let holds = ran.came.is(&self.wanted);
        if !holds {
            show(rt, table, self, &ran)?;
        }
        Ok(holds)
    }
}

fn kind_of(line: &[u8]) -> Line {
    if let Some(setting) = line.strip_prefix(b"%% ") {
        return Line::Setting(setting);
    }
    if let Some(text) = line.strip_prefix(b"> ") {
        return Line::Out(text, true);
    }
    if let Some(text) = line.strip_prefix(b">- ") {
        return Line::Out(text, false);
    }
    if let Some(text) = line.strip_prefix(b"! ") {
        return Line::Err(text, true);
    }
    if let Some(text) = line.strip_prefix(b"!- ") {
        return Line::Err(text, false);
    }
    if let Some(end) = line.strip_prefix(b"= ") {
        return Line::End(end);
    }
    if line == b">".as_slice() {
        return Line::Out(b"", true);
    }
    Line::Script
}

fn push(text: &mut Text, line: &[u8], ends: bool) -> Result<(), NoMemory> {
    text.push_bytes(line)?;
    if ends {
        text.push_bytes(b"\n")?;
    }
    Ok(())
}

fn show(rt: &impl Print, table: &str, row: &Row, ran: &Ran) -> anyhow::Result<()> {
    println!(rt; "{table}: {}", shown(&row.name))?;
    println!(rt; "out: {}", shown(&ran.came.out))?;
    println!(rt; "err: {}", shown(&ran.came.err))?;
    println!(rt; "end: {}", shown(&ran.came.end))?;
    println!(rt; "{}", shown(&ran.schedule))?;
    Ok(())
}
