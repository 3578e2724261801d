//! foreach(n): its variables, and the values that they get turn by turn.
ghost use Rattle.std.specs.Prelude.{◌≡◌, ◌++◌, ◌*◌, [], drop, length, replicate, take, IfOk, OnOk};
ghost use Rattle.std.specs.List.{flat_map};
ghost use Rattle.tt_control.specs.Refusals.{wrong_number};
ghost use Rattle.tt_control.specs.Turns as turns;
ghost use Rattle.tt_lists.specs.Reading.{split_of};

use crate::Control;
use crate::refusals::wrong_number;
use std::alloc::Global;
use tt_text::{NoMemory, Text, Texts};
use tt_value::{Items, Value};

/// The variables of one list, and its values.
#[derive(Debug, Drop)]
pub(crate) struct Column {
    pub(crate) names: Items,
    pub(crate) values: Items,
}

/// A list of variables and a list of values, as they were read.
#[derive(Debug, Drop)]
pub(crate) enum ColumnRead {
    Column(Column),
    Bad(Text),
}

pub(crate) fn foreach(alloc: Global, usage: &[u8], words: &[Value]) -> Result<Control, NoMemory>
    ensures { IfOk result (λ control. control ≡ turns.foreach (wrong_number usage.now) words.now) }
{
    if words.len() < 3 || words.len() % 2 == 0 {
        return wrong_number(alloc, usage);
    }
    read_from(alloc, usage, words)
}

fn read_from(alloc: Global, usage: &[u8], words: &[Value]) -> Result<Control, NoMemory>
    ensures { IfOk result (λ control. control ≡ turns.columns_from (wrong_number usage.now) [] words.now) }
{
    let mut columns = Vec::new(alloc);
    let mut rest = words;
    while let [names, values, later @ ..] = rest {
        match column_of(alloc, names, values)? {
            ColumnRead::Column(column) => columns.push(column)?,
            ColumnRead::Bad(message) => return Ok(Control::Bad(message)),
        }
        rest = later;
    }
    match rest {
        [body, ..] => turned(alloc, columns.as_slice(), body),
        [] => wrong_number(alloc, usage),
    }
}

fn column_of(alloc: Global, names: &Value, values: &Value) -> Result<ColumnRead, NoMemory>
    ensures { IfOk result (λ column. column ≡ turns.column_of names.now values.now) }
{
    match names.to_items(alloc)? {
        Ok(names) if names.as_slice().is_empty() => {
            let message = Text::from_bytes(alloc, b"empty variable list")?;
            Ok(ColumnRead::Bad(message))
        }
        Ok(names) => with_values(alloc, names, values),
        Err(fault) => {
            let message = fault.message(alloc)?;
            Ok(ColumnRead::Bad(message))
        }
    }
}

fn with_values(alloc: Global, names: Items, values: &Value) -> Result<ColumnRead, NoMemory>
    ensures { IfOk result (λ column. column ≡ turns.with_values names (split_of values.now)) }
{
    match values.to_items(alloc)? {
        Ok(values) => Ok(ColumnRead::Column(Column { names, values })),
        Err(fault) => {
            let message = fault.message(alloc)?;
            Ok(ColumnRead::Bad(message))
        }
    }
}

fn turned(alloc: Global, columns: &[Column], body: &Value) -> Result<Control, NoMemory>
    ensures { IfOk result (λ control. control ≡ turns.list_loop columns.now body.now) }
{
    let mut names = Texts::new(alloc);
    push_names(&mut names, columns)?;
    let mut values = Texts::new(alloc);
    push_turns(alloc, &mut values, columns, most_turns(columns))?;
    let body = body.to_text(alloc)?;
    Ok(Control::Foreach {
        names,
        values,
        body,
    })
}

fn push_names(all: &mut Texts, columns: &[Column]) -> Result<(), NoMemory>
    ensures { OnOk result (all.new ≡ all.old ++ flat_map (λ column. column.names) columns.now) }
{
    for column in columns {
        all.push_copies(column.names.as_slice())?;
    }
    Ok(())
}

// The turns that the longest list needs.
fn most_turns(columns: &[Column]) -> usize
    ensures { result ≡ turns.most_turns columns.now }
{
    let mut most = 0;
    for column in columns {
        most = most.max(turns_needed(column));
    }
    most
}

fn turns_needed(column: &Column) -> usize
    ensures { result ≡ turns.turns_needed (length column.now.names) (length column.now.values) }
{
    let width = column.names.as_slice().len();
    if width == 0 {
        return 0;
    }
    column.values.as_slice().len().div_ceil(width)
}

fn push_turns(
    alloc: Global,
    all: &mut Texts,
    columns: &[Column],
    count: usize,
) -> Result<(), NoMemory>
    ensures { OnOk result (all.new ≡ all.old ++ turns.first_turns columns.now count) }
{
    for turn in 0..count {
        push_turn(alloc, all, columns, turn)?;
    }
    Ok(())
}

fn push_turn(
    alloc: Global,
    all: &mut Texts,
    columns: &[Column],
    turn: usize,
) -> Result<(), NoMemory>
    ensures { OnOk result (all.new ≡ all.old ++ flat_map (turns.turn_values turn) columns.now) }
{
    for column in columns {
        push_values(alloc, all, column, turn)?;
    }
    Ok(())
}

fn push_values(alloc: Global, all: &mut Texts, column: &Column, turn: usize) -> Result<(), NoMemory>
    ensures { OnOk result (all.new ≡ all.old ++ turns.turn_values turn column.now) }
{
    let width = column.names.as_slice().len();
    let left = values_from(column.values.as_slice(), turn, width);
    all.push_copies(first_values(left, width))?;
    push_empty(alloc, all, width.saturating_sub(left.len()))
}

// The values from a turn on.
fn values_from(values: &[Text], turn: usize, width: usize) -> &[Text]
    ensures { result.now ≡ drop (turn * width) values.now }
{
    match values.get(turn.saturating_mul(width)..) {
        Some(left) => left,
        None => &[],
    }
}

fn first_values(values: &[Text], width: usize) -> &[Text]
    ensures { result.now ≡ take width values.now }
{
    match values.get(..width) {
        Some(first) => first,
        None => values,
    }
}

fn push_empty(alloc: Global, all: &mut Texts, count: usize) -> Result<(), NoMemory>
    ensures { OnOk result (all.new ≡ all.old ++ replicate count []) }
{
    for _ in 0..count {
        all.push(Text::new(alloc))?;
    }
    Ok(())
}
