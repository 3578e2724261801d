//! The races among the steps that are kept.
ghost use Rattle.std.specs.Prelude.{◌≡◌, ◌++◌, ◌∷◌, [], List, IfOk, OnOk, length, slice_index};
ghost use Rattle.std.specs.List.{filter_map};
ghost use Rattle.std.specs.Option.{option_copied, option_to_list};
ghost use Rattle.tt_before.specs.RaceLists.{is_whole, overlap};
ghost use Rattle.tt_before.specs.Touching.{first_shared, is_one_of, shared_in, shared_key};
ghost use Rattle.tt_before.specs.inside.Found.{AreCounted, clash, is_known, race_of, race_with, races, races_up_to};
ghost use Rattle.tt_before.specs.inside.Found.{told_if};

use crate::kept::Touch;
use crate::{Race, Races, Touched};
use std::alloc::Global;
use tt_text::{NoMemory, Text, Texts};

/// How many races are told.
const MOST: u64 = 100;

/// The races among some steps.
///
/// `NoMemory` if memory for them is refused.
pub(crate) fn races_of(alloc: Global, touches: &[Touch]) -> Result<Races, NoMemory>
    ensures { IfOk result (AreCounted (races_up_to touches.now (length touches.now))) }
{
    let mut races = Races {
        first: Vec::new(alloc),
        count: 0,
    };
    for place in 0..touches.len() {
        find_with(&mut races, &touches[..place], &touches[place])?;
    }
    Ok(races)
}

/// Adds the races of a step with those before it.
fn find_with(races: &mut Races, firsts: &[Touch], second: &Touch) -> Result<(), NoMemory>
    ensures { (all : List Race) → AreCounted all races.old →
        OnOk result (AreCounted (all ++ filter_map (race_with second.now) firsts.now) races.new) }
{
    for first in firsts {
        find(races, first, second)?;
    }
    Ok(())
}

/// Adds the race of two steps, if they race.
fn find(races: &mut Races, first: &Touch, second: &Touch) -> Result<(), NoMemory>
    ensures { (all : List Race) → AreCounted all races.old →
        OnOk result (AreCounted (all ++ option_to_list (race_with second.now first.now)) races.new) }
{
    if !do_race(first, second) {
        return Ok(());
    }
    add_race(races, first, second)?;
    Ok(())
}

fn add_race(races: &mut Races, first: &Touch, second: &Touch) -> Result<(), NoMemory>
    ensures { (all : List Race) → AreCounted all races.old →
        OnOk result (AreCounted (all ++ race_of first.now second.now ∷ []) races.new) }
{
    let count = races.count.checked_add(1).ok_or(NoMemory)?;
    tell(&mut races.first, races.count, first, second)?;
    races.count = count;
    Ok(())
}

/// Tells a race, if so many others leave room for it.
fn tell(told: &mut Vec<Race>, count: u64, first: &Touch, second: &Touch) -> Result<(), NoMemory>
    ensures { OnOk result (told.new.items ≡ told.old.items ++ told_if count (race_of first.now second.now)) }
{
    if count >= MOST {
        return Ok(());
    }
    told.push(race_of(first, second)?)?;
    Ok(())
}

fn race_of(first: &Touch, second: &Touch) -> Result<Race, NoMemory>
    ensures { IfOk result (λ race. race ≡ race_of first.now second.now) }
{
    Ok(Race {
        first: first.place.checked_add(1).ok_or(NoMemory)?,
        second: second.place.checked_add(1).ok_or(NoMemory)?,
        array: second.touched.array.copy()?,
        key: copied(shared_key(&first.touched, &second.touched))?,
    })
}

fn copied(key: Option<&Text>) -> Result<Option<Text>, NoMemory>
    ensures { IfOk result (λ copied. copied ≡ option_copied key.entry) }
{
    match key {
        Some(key) => Ok(Some(key.copy()?)),
        None => Ok(None),
    }
}

/// Whether two steps race, the first of which has its place before the second.
fn do_race(first: &Touch, second: &Touch) -> bool
    ensures { result ≡ races first.now second.now }
{
    first.thread != second.thread
        && !is_known(first, second)
        && clash(&first.touched, &second.touched)
}

fn is_known(first: &Touch, second: &Touch) -> bool
    ensures { result ≡ is_known first.now second.now }
{
    first.rank <= number_at(second.row.as_slice(), first.thread as usize)
}

/// The number at a place of a row, 0 behind its end.
fn number_at(row: &[u16], place: usize) -> u16
    ensures { result ≡ slice_index row.now place }
{
    if place < row.len() { row[place] } else { 0 }
}

fn clash(one: &Touched, other: &Touched) -> bool
    ensures { result ≡ clash one.now other.now }
{
    one.array == other.array && overlap(one, other) && (one.writes || other.writes)
}

fn overlap(one: &Touched, other: &Touched) -> bool
    ensures { result ≡ overlap one.now other.now }
{
    one.keys.is_none() || other.keys.is_none() || shared_key(one, other).is_some()
}

/// The first key of the second that both touch.
fn shared_key<'a>(first: &'a Touched, second: &'a Touched) -> Option<&'a Text>
    ensures { option_copied result ≡ shared_key first.now second.now }
{
    match (&second.keys, &first.keys) {
        (Some(keys), Some(others)) => first_shared(keys.as_slice(), others.as_slice()),
        _ => None,
    }
}

fn first_shared<'a>(keys: &'a [Text], others: &'a [Text]) -> Option<&'a Text>
    ensures { option_copied result ≡ first_shared keys.now others.now }
{
    for key in keys {
        if others.contains(key) {
            return Some(key);
        }
    }
    None
}
