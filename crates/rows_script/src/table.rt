//! The lines of a row, and what is shown of one that doesn't hold.

use crate::host::run;
use crate::row::{Came, Part, Row};
use rows_reader::{number_of, shown};
use std::alloc::Global;
use tt_text::Text;

/// What a line of a table says.
#[derive(Clone, Copy)]
enum Line<'a> {
    Limit(&'a [u8]),
    Begins(Part),
    Code(&'a [u8]),
    Other,
}

impl rows_reader::Row for Row {
    fn named(alloc: Global, name: &[u8]) -> anyhow::Result<Self> {
        let row = Row::new(alloc, name)?;
        Ok(row)
    }

    fn read_line(&mut self, alloc: Global, line: &[u8]) -> anyhow::Result<()> {
        match kind_of(line) {
            Line::Limit(limit) => self.limit = u64::from(number_of(limit)?),
            Line::Begins(part) => self.part = part,
            Line::Code(code) => self.wanted.code = Text::from_bytes(alloc, code)?,
            Line::Other => self.push(line)?,
        }
        Ok(())
    }

    fn holds(&self, rt: &impl Print, alloc: Global, _table: &str) -> anyhow::Result<bool> {
        let came = run(alloc, &self.script, self.limit)?;
        let holds = came.is(&self.wanted);
        if !holds {
            show(rt, self, &came)?;
        }
        Ok(holds)
    }
}

fn kind_of(line: &[u8]) -> Line {
    if let Some(limit) = line.strip_prefix(b"%% limit ") {
        return Line::Limit(limit);
    }
    if let Some(code) = line.strip_prefix(b"=> ") {
        return Line::Code(code);
    }
    if line == b"-- ".as_slice() {
        return Line::Begins(Part::Out);
    }
    if line == b"!! ".as_slice() {
        return Line::Begins(Part::Err);
    }
    Line::Other
}

fn show(rt: &impl Print, row: &Row, came: &Came) -> anyhow::Result<()> {
    println!(rt; "row: {}", shown(&row.name))?;
    println!(rt; "out: {}", shown(&came.out))?;
    println!(rt; "err: {}", shown(&came.err))?;
    println!(rt; "code: {}", shown(&came.code))?;
    Ok(())
}
