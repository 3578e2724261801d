//! Rows of scripts that numbers give.
//!
//! A row begins with a number and a size, up to 2,000 jobs. The script's text follows, where `\n` is a newline, or `N
//! bytes`, how many it has.

use std::alloc::Global;
use tt_generate::workload;

/// The script that the number gives at the size, as text as it is wanted.
pub(crate) fn answer(alloc: Global, row: &str, wanted: &str) -> anyhow::Result<String> {
    let Some((number, size)) = row.trim().split_once(' ') else {
        anyhow::bail!("a row without a size");
    };
    let script = workload(alloc, number.parse()?, size.parse()?)?;
    if wanted.ends_with(" bytes") {
        let length = format!(in alloc; "{} bytes", script.len())?;
        return Ok(length);
    }
    let text = str::from_utf8(script.as_bytes())?;
    let shown = text.replace(alloc, "\n", "\\n")?;
    Ok(shown)
}
