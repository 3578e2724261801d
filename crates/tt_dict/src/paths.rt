//! Values in dictionaries that are values of dictionaries, by keys inwards. A path may have many thousand keys, so it
//! is gone by loops; a change takes the text of each dictionary on the way, so time in proportion to the path and to
//! the whole text.
ghost use Rattle.std.specs.Prelude.{◌≡◌, ◌∷◌, Err, IfErr, IfOk, Ok, OnOk};
ghost use Rattle.tt_dict.specs.Paths as paths;
ghost use Rattle.tt_dict.specs.inside.Levels.{around};
ghost use Rattle.tt_dict.specs.inside.Steps.{after_step};
ghost use Rattle.tt_pairs.specs.Pairs.{Pairs, text_of, value_of, with_pair};

use crate::edit::{Edit, Level, Step};
use crate::messages::missing;
use std::alloc::Global;
use std::mem;
use tt_pairs::{Dictionary, read};
use tt_text::{NoMemory, Text};

/// The value of the last key, in the dictionary that the keys before it name.
pub(crate) fn value_on(
    alloc: Global,
    pairs: &Dictionary,
    key: &Text,
    keys: &[Text],
) -> Result<Result<Text, Text>, NoMemory>
    ensures { IfOk result (λ value. value ≡ paths.value_at pairs.now key.now keys.now) }
{
    let [next, keys @ ..] = keys else {
        return found_in(alloc, pairs, key);
    };
    match inner_of(alloc, pairs, key)? {
        Ok(inner) => value_at(alloc, inner, next, keys),
        Err(message) => Ok(Err(message)),
    }
}

// The same of a dictionary of its own.
#[tactic(auto, using(crate::proofs::Inwards::value_more, crate::proofs::Inwards::value_stops, crate::proofs::Inwards::value_last))]
fn value_at(
    alloc: Global,
    mut inner: Dictionary,
    key: &Text,
    keys: &[Text],
) -> Result<Result<Text, Text>, NoMemory>
    ensures { IfOk result (λ value. value ≡ paths.value_at inner key.now keys.now) }
{
    let mut at = key;
    let mut rest = keys;
    while let Some((next, later)) = rest.split_first() {
        match inner_of(alloc, &inner, at)? {
            Ok(found) => inner = found,
            Err(message) => return Ok(Err(message)),
        }
        at = next;
        rest = later;
    }
    found_in(alloc, &inner, at)
}

fn found_in(alloc: Global, pairs: &Dictionary, key: &Text) -> Result<Result<Text, Text>, NoMemory>
    ensures { IfOk result (λ value. value ≡ paths.found_by key.now (value_of pairs.now key.now)) }
{
    match pairs.get(key) {
        Some(value) => Ok(Ok(value.copy()?)),
        None => Ok(Err(missing(alloc, key)?)),
    }
}

fn inner_of(
    alloc: Global,
    pairs: &Dictionary,
    key: &Text,
) -> Result<Result<Dictionary, Text>, NoMemory>
    ensures { IfOk result (λ inner. inner ≡ paths.inner_by key.now (value_of pairs.now key.now)) }
{
    match pairs.get(key) {
        Some(value) => read(alloc, value.as_bytes()),
        None => Ok(Err(missing(alloc, key)?)),
    }
}

/// What an edit of the last key of a path does to the outermost dictionary; or why it can't be done.
pub(crate) fn step_on(
    alloc: Global,
    edit: &Edit,
    pairs: &Dictionary,
    path: &[Text],
) -> Result<Result<Step, Text>, NoMemory>
    ensures step { IfOk result (λ made. IfOk made (λ step.
        paths.after_edit_on edit.now pairs.now path.now ≡ Ok (after_step step pairs.now))) }
    ensures bad { IfOk result (λ made. IfErr made (λ message.
        paths.after_edit_on edit.now pairs.now path.now ≡ Err message)) }
{
    match path {
        [] => Ok(Ok(Step::Stays)),
        [key] => Ok(Ok(last_step(edit, key)?)),
        [key, next, keys @ ..] => step_inwards(alloc, edit, pairs, key, next, keys),
    }
}

fn last_step(edit: &Edit, key: &Text) -> Result<Step, NoMemory>
    ensures { (pairs : Pairs) → IfOk result (λ step. paths.after_edit edit.now pairs key.now ≡ after_step step pairs) }
{
    match edit {
        Edit::Put(value) => Ok(Step::Puts(key.copy()?, value.copy()?)),
        Edit::Remove => Ok(Step::Removes(key.copy()?)),
    }
}

fn step_inwards(
    alloc: Global,
    edit: &Edit,
    pairs: &Dictionary,
    key: &Text,
    next: &Text,
    keys: &[Text],
) -> Result<Result<Step, Text>, NoMemory>
    ensures step { IfOk result (λ made. IfOk made (λ step.
        paths.after_edit_at edit.now pairs.now key.now (next.now ∷ keys.now) ≡ Ok (after_step step pairs.now))) }
    ensures bad { IfOk result (λ made. IfErr made (λ message.
        paths.after_edit_at edit.now pairs.now key.now (next.now ∷ keys.now) ≡ Err message)) }
{
    let inner = match way_in(alloc, edit, pairs, key)? {
        Ok(inner) => inner,
        Err(message) => return Ok(Err(message)),
    };
    match edited_at(alloc, edit, inner, next, keys)? {
        Ok(inner) => Ok(Ok(Step::Puts(key.copy()?, inner.text()?))),
        Err(message) => Ok(Err(message)),
    }
}

#[tactic(auto, using(crate::proofs::Inwards::edit_more, crate::proofs::Inwards::edit_stops, crate::proofs::Inwards::edit_last))]
fn edited_at(
    alloc: Global,
    edit: &Edit,
    mut inner: Dictionary,
    key: &Text,
    keys: &[Text],
) -> Result<Result<Dictionary, Text>, NoMemory>
    ensures { IfOk result (λ made. made ≡ paths.after_edit_at edit.now inner key.now keys.now) }
{
    let mut levels = Vec::new(alloc);
    let mut at = key;
    let mut rest = keys;
    while let Some((next, later)) = rest.split_first() {
        match way_in(alloc, edit, &inner, at)? {
            Ok(found) => {
                let pairs = mem::replace(&mut inner, found);
                levels.push(Level {
                    pairs,
                    key: at.copy()?,
                })?;
            }
            Err(message) => return Ok(Err(message)),
        }
        at = next;
        rest = later;
    }
    edit_last(edit, &mut inner, at)?;
    let whole = outwards(levels, inner)?;
    Ok(Ok(whole))
}

fn way_in(
    alloc: Global,
    edit: &Edit,
    pairs: &Dictionary,
    key: &Text,
) -> Result<Result<Dictionary, Text>, NoMemory>
    ensures { IfOk result (λ inner. inner ≡ paths.way_by edit.now key.now (value_of pairs.now key.now)) }
{
    match pairs.get(key) {
        Some(value) => read(alloc, value.as_bytes()),
        None => way_without(alloc, edit, key),
    }
}

fn way_without(alloc: Global, edit: &Edit, key: &Text) -> Result<Result<Dictionary, Text>, NoMemory>
    ensures { IfOk result (λ inner. inner ≡ paths.way_without edit.now key.now) }
{
    match edit {
        Edit::Put(_) => Ok(Ok(Dictionary::new(alloc))),
        Edit::Remove => Ok(Err(missing(alloc, key)?)),
    }
}

fn edit_last(edit: &Edit, pairs: &mut Dictionary, key: &Text) -> Result<(), NoMemory>
    ensures { OnOk result (pairs.new ≡ paths.after_edit edit.now pairs.old key.now) }
{
    match edit {
        Edit::Put(value) => pairs.put(key.copy()?, value.copy()?),
        Edit::Remove => {
            pairs.remove(key);
            Ok(())
        }
    }
}

// The outermost dictionary, once the innermost is this.
#[tactic(auto, using(crate::proofs::Inwards::out_more))]
fn outwards(mut levels: Vec<Level>, mut inner: Dictionary) -> Result<Dictionary, NoMemory>
    ensures { IfOk result (λ whole. around levels.items (Ok inner) ≡ Ok whole) }
{
    while let Some(level) = levels.pop() {
        inner = put_back(level, &inner)?;
    }
    Ok(inner)
}

fn put_back(level: Level, inner: &Dictionary) -> Result<Dictionary, NoMemory>
    ensures { IfOk result (λ outer. outer ≡ with_pair level.pairs level.key (text_of inner.now)) }
{
    let Level { mut pairs, key } = level;
    pairs.put(key, inner.text()?)?;
    Ok(pairs)
}
