//! The table of usages: names, and how many words follow them.
ghost use Rattle.std.specs.Prelude.{◌≡◌, None, Some};
ghost use Rattle.tt_tsv.specs.Words as table;

use crate::usage::{ArrayUsage, ElementUsage, Usage};

/// What the table says of a usage.
#[derive(Clone, Copy)]
pub(crate) struct Row {
    /// The command's name, or what follows `tsv::array`.
    pub(crate) name: &'static [u8],
    /// How many words follow it at least.
    pub(crate) least: usize,
    /// How many do at most; any number if there is no bound.
    pub(crate) most: Option<usize>,
}

fn between(name: &'static [u8], least: usize, most: usize) -> Row
    ensures name { result.name.now ≡ name.now }
    ensures least { result.least ≡ least }
    ensures most { result.most ≡ Some most }
{
    Row {
        name,
        least,
        most: Some(most),
    }
}

fn exactly(name: &'static [u8], count: usize) -> Row
    ensures name { result.name.now ≡ name.now }
    ensures least { result.least ≡ count }
    ensures most { result.most ≡ Some count }
{
    between(name, count, count)
}

fn from(name: &'static [u8], least: usize) -> Row
    ensures name { result.name.now ≡ name.now }
    ensures least { result.least ≡ least }
    ensures most { result.most ≡ None }
{
    Row {
        name,
        least,
        most: None,
    }
}

/// The table.
pub(crate) fn row_of(usage: Usage) -> Row
    ensures name { result.name.now ≡ (table.row_of usage).name }
    ensures least { result.least ≡ (table.row_of usage).least }
    ensures most { result.most ≡ (table.row_of usage).most }
{
    match usage {
        Usage::Names => between(b"tsv::names", 0, 1),
        Usage::Find => exactly(b"tsv::get", 3),
        Usage::Exists => exactly(b"tsv::exists", 2),
        Usage::Move => exactly(b"tsv::move", 3),
        Usage::Array(usage) => array_row(usage),
        Usage::Element(usage) => element_row(usage),
    }
}

fn array_row(usage: ArrayUsage) -> Row
    ensures name { result.name.now ≡ (table.row_of (Usage.Array usage)).name }
    ensures least { result.least ≡ (table.row_of (Usage.Array usage)).least }
    ensures most { result.most ≡ (table.row_of (Usage.Array usage)).most }
{
    match usage {
        ArrayUsage::Unset => exactly(b"tsv::unset", 1),
        ArrayUsage::Exists => exactly(b"tsv::exists", 1),
        ArrayUsage::Set => exactly(b"set", 2),
        ArrayUsage::Get => between(b"get", 1, 2),
        ArrayUsage::Names => between(b"names", 1, 2),
        ArrayUsage::Size => exactly(b"size", 1),
        ArrayUsage::Reset => exactly(b"reset", 2),
    }
}

fn element_row(usage: ElementUsage) -> Row
    ensures name { result.name.now ≡ (table.row_of (Usage.Element usage)).name }
    ensures least { result.least ≡ (table.row_of (Usage.Element usage)).least }
    ensures most { result.most ≡ (table.row_of (Usage.Element usage)).most }
{
    match usage {
        ElementUsage::Set => exactly(b"tsv::set", 3),
        ElementUsage::Read => exactly(b"tsv::set", 2),
        ElementUsage::Get => exactly(b"tsv::get", 2),
        ElementUsage::Unset => exactly(b"tsv::unset", 2),
        ElementUsage::Pop => exactly(b"tsv::pop", 2),
        ElementUsage::Incr => between(b"tsv::incr", 2, 3),
        ElementUsage::Append => from(b"tsv::append", 2),
        ElementUsage::Lappend => from(b"tsv::lappend", 2),
        ElementUsage::Llength => exactly(b"tsv::llength", 2),
        ElementUsage::Lindex => between(b"tsv::lindex", 2, 3),
        ElementUsage::Lrange => exactly(b"tsv::lrange", 4),
        ElementUsage::Lsearch => exactly(b"tsv::lsearch", 3),
        ElementUsage::LsearchBy => exactly(b"tsv::lsearch", 4),
        ElementUsage::Linsert => from(b"tsv::linsert", 3),
        ElementUsage::Lreplace => from(b"tsv::lreplace", 4),
        ElementUsage::Lpush => between(b"tsv::lpush", 3, 4),
        ElementUsage::Lpop => between(b"tsv::lpop", 2, 3),
    }
}
