//! The lines of a row, and what is shown of one that doesn't hold.

use crate::call::call;
use crate::row::{Came, Row};
use crate::settings::{file_of, set, steps_of};
use rows_reader::shown;
use std::alloc::Global;
use tt_text::{NoMemory, Text};

/// What a line of a table says.
#[derive(Clone, Copy)]
enum Line<'a> {
    Setting(&'a [u8]),
    Out(&'a [u8]),
    Err(&'a [u8]),
    OutPart(&'a [u8]),
    ErrPart(&'a [u8]),
    Steps(&'a [u8]),
    File(&'a [u8]),
    End(&'a [u8]),
    Script,
}

impl rows_reader::Row for Row {
    fn named(alloc: Global, name: &[u8]) -> anyhow::Result<Self> {
        let row = Row::new(alloc, name)?;
        Ok(row)
    }

    fn read_line(&mut self, alloc: Global, line: &[u8]) -> anyhow::Result<()> {
        match kind_of(line) {
            Line::Setting(setting) => set(alloc, self, setting)?,
            Line::Out(text) => push_line(&mut self.wanted.out, text)?,
            Line::Err(text) => push_line(&mut self.wanted.err, text)?,
            Line::OutPart(text) => self.wanted.out.push_bytes(text)?,
            Line::ErrPart(text) => self.wanted.err.push_bytes(text)?,
            Line::Steps(steps) => self.wanted.steps = steps_of(alloc, steps)?,
            Line::File(file) => self.wanted.files.push(file_of(alloc, file)?)?,
            Line::End(end) => self.wanted.end = Text::from_bytes(alloc, end)?,
            Line::Script => self.push_line(alloc, line)?,
        }
        Ok(())
    }

    fn holds(&self, rt: &impl Print, alloc: Global, table: &str) -> anyhow::Result<bool> {
        let came = call(alloc, self)?;
        let holds = came.is(&self.wanted);
        if !holds {
            show(rt, table, self, &came)?;
        }
        Ok(holds)
    }
}

fn kind_of(line: &[u8]) -> Line {
    if let Some(setting) = line.strip_prefix(b"%% ") {
        return Line::Setting(setting);
    }
    if let Some(text) = line.strip_prefix(b"> ") {
        return Line::Out(text);
    }
    if let Some(text) = line.strip_prefix(b">- ") {
        return Line::OutPart(text);
    }
    if let Some(text) = line.strip_prefix(b"! ") {
        return Line::Err(text);
    }
    if let Some(text) = line.strip_prefix(b"!- ") {
        return Line::ErrPart(text);
    }
    if let Some(steps) = line.strip_prefix(b"@ ") {
        return Line::Steps(steps);
    }
    if let Some(file) = line.strip_prefix(b"+ ") {
        return Line::File(file);
    }
    if let Some(end) = line.strip_prefix(b"= ") {
        return Line::End(end);
    }
    Line::Script
}

fn push_line(text: &mut Text, line: &[u8]) -> Result<(), NoMemory> {
    text.push_bytes(line)?;
    text.push_bytes(b"\n")
}

fn show(rt: &impl Print, table: &str, row: &Row, came: &Came) -> anyhow::Result<()> {
    println!(rt; "{table}: {}", shown(&row.name))?;
    println!(rt; "out: {}", shown(&came.out))?;
    println!(rt; "err: {}", shown(&came.err))?;
    println!(rt; "steps: {}", shown(&came.steps))?;
    println!(rt; "end: {}", shown(&came.end))?;
    for file in came.files.as_slice() {
        println!(rt; "file: {} {}", shown(&file.name), shown(&file.bytes))?;
    }
    Ok(())
}
