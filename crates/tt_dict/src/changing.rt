//! What a change makes of a dictionary.
ghost use Rattle.std.specs.Prelude.{◌≡◌, ◌++◌, [], codes, Err, IfErr, IfOk, Ok};
ghost use Rattle.tt_dict.specs.Changing as changing;
ghost use Rattle.tt_dict.specs.Paths as paths;
ghost use Rattle.tt_dict.specs.inside.Steps.{after_step};
ghost use Rattle.tt_pairs.specs.Pairs.{Pairs};
ghost use Rattle.tt_pairs.specs.Reading.{reading_of};
ghost use Rattle.tt_value.specs.Growing.{value_after};
ghost use Rattle.tt_lists.specs.Reading.{split_of};
ghost use Rattle.tt_lists.specs.Spelling.{list_of};
ghost use Rattle.tt_number.specs.Numerals.{whole_of};
ghost use Rattle.tt_number.specs.Operators.{binary_of};
ghost use Rattle.tt_number.specs.declared.operators.NumOp.TheVariants.{Add};

use crate::Change;
use crate::edit::{Edit, Step};
use crate::paths::step_on;
use std::alloc::Global;
use tt_lists::{Split, join_list, split};
use tt_number::{NumOp, binary, read_whole, whole_text};
use tt_pairs::Dictionary;
use tt_text::{NoMemory, Text, Texts};
use tt_value::{Changing, Made, Value};

impl Changing for Change {
    ghost use Rattle.tt_dict.specs.Changing as changing;
    ghost use Rattle.tt_pairs.specs.Reading.{reading_of};

    ghost meaning = { λ change text. changing.change_answer change (reading_of text) };

    fn change(&self, alloc: Global, value: &mut Value) -> Result<Made, NoMemory> {
        let pairs = match value.pairs(alloc)? {
            Ok(pairs) => pairs,
            Err(message) => return Ok(Made::bad(message)),
        };
        let step = match step_of(alloc, self, pairs.dictionary())? {
            Ok(step) => step,
            Err(message) => return Ok(Made::bad(message)),
        };
        drop(pairs);
        take_step(alloc, value, step)
    }
}

// The pairs that a value is read as take a step.
fn take_step(alloc: Global, value: &mut Value, step: Step) -> Result<Made, NoMemory>
    ensures made { (pairs : Pairs) → reading_of value.old ≡ Ok pairs →
        IfOk result (λ made. made ≡ changing.answer_of (Ok (after_step step pairs))) }
    ensures left { (pairs : Pairs) → reading_of value.old ≡ Ok pairs →
        IfOk result (λ made. value.new ≡ value_after made value.old) }
{
    let taken = match step {
        Step::Stays => value.pairs_alone(alloc)?,
        Step::Puts(key, text) => value.put_pair(alloc, key, text)?,
        Step::Removes(key) => value.remove_pair(alloc, &key)?,
    };
    match taken {
        Ok(()) => Ok(Made::value(value.copy()?)),
        Err(message) => Ok(Made::bad(message)),
    }
}

// What a change does to the outermost dictionary; or its error.
fn step_of(
    alloc: Global,
    change: &Change,
    pairs: &Dictionary,
) -> Result<Result<Step, Text>, NoMemory>
    ensures step { IfOk result (λ step. IfOk step (λ step.
        changing.after change.now pairs.now ≡ Ok (after_step step pairs.now))) }
    ensures bad { IfOk result (λ step. IfErr step (λ message. changing.after change.now pairs.now ≡ Err message)) }
{
    match change {
        Change::Set { path, value } => {
            let edit = Edit::Put(value.copy()?);
            step_on(alloc, &edit, pairs, path.as_slice())
        }
        Change::Unset { path } => step_on(alloc, &Edit::Remove, pairs, path.as_slice()),
        Change::Incr { key, by } => incr(alloc, pairs, key, *by),
        Change::Append { key, pieces } => append(alloc, pairs, key, pieces.as_slice()),
        Change::Lappend { key, items } => lappend(alloc, pairs, key, items.as_slice()),
    }
}

fn incr(
    alloc: Global,
    pairs: &Dictionary,
    key: &Text,
    by: i64,
) -> Result<Result<Step, Text>, NoMemory>
    ensures step { IfOk result (λ made. IfOk made (λ step.
        changing.putting pairs.now key.now
        (changing.text_increase (changing.value_or (codes "0") pairs.now key.now) by)
        ≡ Ok (after_step step pairs.now))) }
    ensures bad { IfOk result (λ made. IfErr made (λ message.
        changing.putting pairs.now key.now
        (changing.text_increase (changing.value_or (codes "0") pairs.now key.now) by) ≡ Err message)) }
{
    match increased(alloc, value_or(pairs, key, b"0"), by)? {
        Ok(text) => Ok(Ok(Step::Puts(key.copy()?, text))),
        Err(message) => Ok(Err(message)),
    }
}

fn append(
    alloc: Global,
    pairs: &Dictionary,
    key: &Text,
    pieces: &[Text],
) -> Result<Result<Step, Text>, NoMemory>
    ensures step { IfOk result (λ made. IfOk made (λ step.
        changing.putting pairs.now key.now
        (Ok (changing.text_with (changing.value_or [] pairs.now key.now) pieces.now))
        ≡ Ok (after_step step pairs.now))) }
    ensures bad { IfOk result (λ made. IfErr made (λ message.
        changing.putting pairs.now key.now
        (Ok (changing.text_with (changing.value_or [] pairs.now key.now) pieces.now)) ≡ Err message)) }
{
    let text = appended(alloc, value_or(pairs, key, b""), pieces)?;
    Ok(Ok(Step::Puts(key.copy()?, text)))
}

fn lappend(
    alloc: Global,
    pairs: &Dictionary,
    key: &Text,
    items: &[Text],
) -> Result<Result<Step, Text>, NoMemory>
    ensures step { IfOk result (λ made. IfOk made (λ step.
        changing.putting pairs.now key.now
        (changing.list_with (split_of (changing.value_or [] pairs.now key.now)) items.now)
        ≡ Ok (after_step step pairs.now))) }
    ensures bad { IfOk result (λ made. IfErr made (λ message.
        changing.putting pairs.now key.now
        (changing.list_with (split_of (changing.value_or [] pairs.now key.now)) items.now) ≡ Err message)) }
{
    match listed(alloc, value_or(pairs, key, b""), items)? {
        Ok(text) => Ok(Ok(Step::Puts(key.copy()?, text))),
        Err(message) => Ok(Err(message)),
    }
}

// The value of a key, if a missing one counts as this text.
fn value_or<'a>(pairs: &'a Dictionary, key: &Text, missing: &'a [u8]) -> &'a [u8]
    ensures { result.now ≡ changing.value_or missing.now pairs.now key.now }
{
    match pairs.get(key) {
        Some(value) => value.as_bytes(),
        None => missing,
    }
}

fn increased(alloc: Global, text: &[u8], by: i64) -> Result<Result<Text, Text>, NoMemory>
    ensures { IfOk result (λ made. made ≡ changing.number_increase text.now (whole_of text.now) by) }
{
    match read_whole(text) {
        Ok(number) => sum(alloc, number, by),
        Err(fault) => Ok(Err(fault.message(alloc, text)?)),
    }
}

fn sum(alloc: Global, number: i64, by: i64) -> Result<Result<Text, Text>, NoMemory>
    ensures { IfOk result (λ made. made ≡ changing.sum_by (binary_of Add number by)) }
{
    match binary(NumOp::Add, number, by) {
        Ok(sum) => Ok(Ok(whole_text(alloc, sum)?)),
        Err(fault) => Ok(Err(Text::from_bytes(alloc, fault.message())?)),
    }
}

fn appended(alloc: Global, text: &[u8], pieces: &[Text]) -> Result<Text, NoMemory>
    ensures { IfOk result (λ made. made ≡ changing.text_with text.now pieces.now) }
{
    let mut all = Text::from_bytes(alloc, text)?;
    for piece in pieces {
        all.push_bytes(piece.as_bytes())?;
    }
    Ok(all)
}

fn listed(alloc: Global, text: &[u8], more: &[Text]) -> Result<Result<Text, Text>, NoMemory>
    ensures { IfOk result (λ made. made ≡ changing.list_with (split_of text.now) more.now) }
{
    match split(alloc, text)? {
        Split::Items(items) => Ok(Ok(longer(alloc, items, more)?)),
        Split::Bad(fault) => Ok(Err(fault.message(alloc)?)),
    }
}

fn longer(alloc: Global, mut items: Texts, more: &[Text]) -> Result<Text, NoMemory>
    ensures { IfOk result (λ text. text ≡ list_of (items ++ more.now)) }
{
    items.push_copies(more)?;
    join_list(alloc, items.as_slice())
}
