ghost use Rattle.std.specs.Prelude.{◌≡◌, ◌++◌, IfOk, OnOk};
ghost use Rattle.std.specs.Fmt.{decimal};
ghost use Rattle.std.specs.List.{flat_map};
ghost use Rattle.tt_reports.specs.RaceText.{as_element, count_line, entries_text, key_text, place_text, race_line};
ghost use Rattle.tt_reports.specs.RaceText.{races_text_of};

use std::alloc::Global;
use std::slice::from_ref;
use tt_before::{Race, Races};
use tt_ids::number_text;
use tt_lists::join_list;
use tt_text::{NoMemory, Text};

/// The report of races: a line for each of the first of them, and one with the number of all.
///
/// `NoMemory` if memory for it is refused.
pub fn races_text(alloc: Global, races: &Races) -> Result<Text, NoMemory>
    ensures text { IfOk result (λ text. text ≡ races_text_of races.now) }
{
    let mut text = Text::new(alloc);
    push_races(alloc, &mut text, races.first.as_slice())?;
    push_count(alloc, &mut text, races.count)?;
    Ok(text)
}

fn push_races(alloc: Global, text: &mut Text, races: &[Race]) -> Result<(), NoMemory>
    ensures { OnOk result (text.new ≡ text.old ++ flat_map race_line races.now) }
{
    for race in races {
        push_race(alloc, text, race)?;
    }
    Ok(())
}

fn push_race(alloc: Global, text: &mut Text, race: &Race) -> Result<(), NoMemory>
    ensures { OnOk result (text.new ≡ text.old ++ race_line race.now) }
{
    push_entries(alloc, text, race)?;
    push_place(alloc, text, race)?;
    text.push_bytes(b"\n")?;
    Ok(())
}

fn push_entries(alloc: Global, text: &mut Text, race: &Race) -> Result<(), NoMemory>
    ensures { OnOk result (text.new ≡ text.old ++ entries_text race.now) }
{
    text.push_bytes(b"race ")?;
    push_number(alloc, text, race.first)?;
    text.push_bytes(b" ")?;
    push_number(alloc, text, race.second)?;
    Ok(())
}

fn push_place(alloc: Global, text: &mut Text, race: &Race) -> Result<(), NoMemory>
    ensures { OnOk result (text.new ≡ text.old ++ place_text race.now) }
{
    text.push_bytes(b" ")?;
    push_element(alloc, text, &race.array)?;
    text.push_bytes(b" ")?;
    push_key(alloc, text, race)?;
    Ok(())
}

/// The key that both touch, or a star for the whole array.
fn push_key(alloc: Global, text: &mut Text, race: &Race) -> Result<(), NoMemory>
    ensures { OnOk result (text.new ≡ text.old ++ key_text race.now.key) }
{
    match &race.key {
        Some(key) => push_element(alloc, text, key),
        None => text.push_bytes(b"*"),
    }
}

fn push_count(alloc: Global, text: &mut Text, count: u64) -> Result<(), NoMemory>
    ensures { OnOk result (text.new ≡ text.old ++ count_line count) }
{
    text.push_bytes(b"races ")?;
    push_number(alloc, text, count)?;
    text.push_bytes(b"\n")?;
    Ok(())
}

fn push_number(alloc: Global, text: &mut Text, number: u64) -> Result<(), NoMemory>
    ensures { OnOk result (text.new ≡ text.old ++ decimal number) }
{
    let digits = number_text(alloc, number)?;
    text.push_bytes(digits.as_bytes())?;
    Ok(())
}

/// An item as the first of a list (list(n)).
fn push_element(alloc: Global, text: &mut Text, item: &Text) -> Result<(), NoMemory>
    ensures { OnOk result (text.new ≡ text.old ++ as_element item.now) }
{
    let list = join_list(alloc, from_ref(item))?;
    text.push_bytes(list.as_bytes())?;
    Ok(())
}
