//! Subcommands that change a variable.
ghost use Rattle.std.specs.Prelude.{◌≡◌, IfOk};
ghost use Rattle.tt_calls.specs.Outcomes.{error_outcome};
ghost use Rattle.tt_calls.specs.Usages.{wrong_number};
ghost use Rattle.tt_dict.specs.Variables as variables;
ghost use Rattle.tt_dict.specs.declared.call.DictCall.TheVariants.{Done, Variable};
ghost use Rattle.tt_number.specs.Numerals.{whole_of};

use crate::{Change, DictCall};
use std::alloc::Global;
use tt_calls::Outcome;
use tt_number::read_whole;
use tt_text::{NoMemory, Text, Texts};

fn wrong(alloc: Global, usage: &[u8]) -> Result<DictCall, NoMemory>
    ensures { IfOk result (λ call. call ≡ Done (error_outcome (wrong_number usage.now))) }
{
    Ok(DictCall::Done(Outcome::wrong_number(alloc, usage)?))
}

fn variable(name: &Text, change: Change) -> Result<DictCall, NoMemory>
    ensures { IfOk result (λ call. call ≡ Variable name.now change) }
{
    let name = name.copy()?;
    Ok(DictCall::Variable { name, change })
}

/// `dict set`.
pub(crate) fn set(alloc: Global, usage: &[u8], words: &[Text]) -> Result<DictCall, NoMemory>
    ensures { IfOk result (λ call. call ≡ variables.set_meaning (error_outcome (wrong_number usage.now)) words.now) }
{
    match words {
        [name, _, _, ..] => set_last(alloc, name, &words[1..]),
        _ => wrong(alloc, usage),
    }
}

fn set_last(alloc: Global, name: &Text, words: &[Text]) -> Result<DictCall, NoMemory>
    ensures { IfOk result (λ call. call ≡ variables.set_last name.now words.now) }
{
    let path = Texts::from_copies(alloc, &words[..words.len().saturating_sub(1)])?;
    let value = last_of(alloc, words)?;
    variable(name, Change::Set { path, value })
}

fn last_of(alloc: Global, words: &[Text]) -> Result<Text, NoMemory>
    ensures { IfOk result (λ last. last ≡ variables.last_of words.now) }
{
    match words.last() {
        Some(last) => last.copy(),
        None => Ok(Text::new(alloc)),
    }
}

/// `dict unset`.
pub(crate) fn unset(alloc: Global, usage: &[u8], words: &[Text]) -> Result<DictCall, NoMemory>
    ensures { IfOk result (λ call. call ≡ variables.unset_meaning (error_outcome (wrong_number usage.now)) words.now) }
{
    match words {
        [name, _, ..] => unset_at(alloc, name, &words[1..]),
        _ => wrong(alloc, usage),
    }
}

fn unset_at(alloc: Global, name: &Text, keys: &[Text]) -> Result<DictCall, NoMemory>
    ensures { IfOk result (λ call. call ≡ Variable name.now (Change.Unset keys.now)) }
{
    let path = Texts::from_copies(alloc, keys)?;
    variable(name, Change::Unset { path })
}

/// `dict incr`.
pub(crate) fn incr(alloc: Global, usage: &[u8], words: &[Text]) -> Result<DictCall, NoMemory>
    ensures { IfOk result (λ call. call ≡ variables.incr (error_outcome (wrong_number usage.now)) words.now) }
{
    match words {
        [name, key] => incr_by(name, key, 1),
        [name, key, step] => incr_step(alloc, name, key, step),
        _ => wrong(alloc, usage),
    }
}

fn incr_by(name: &Text, key: &Text, by: i64) -> Result<DictCall, NoMemory>
    ensures { IfOk result (λ call. call ≡ Variable name.now (Change.Incr key.now by)) }
{
    let key = key.copy()?;
    variable(name, Change::Incr { key, by })
}

fn incr_step(alloc: Global, name: &Text, key: &Text, step: &Text) -> Result<DictCall, NoMemory>
    ensures { IfOk result (λ call. call ≡ variables.incr_by name.now key.now step.now (whole_of step.now)) }
{
    match read_whole(step.as_bytes()) {
        Ok(by) => incr_by(name, key, by),
        Err(fault) => {
            let message = fault.message(alloc, step.as_bytes())?;
            Ok(DictCall::Done(Outcome::failed(message)?))
        }
    }
}

/// `dict append`.
pub(crate) fn append(alloc: Global, usage: &[u8], words: &[Text]) -> Result<DictCall, NoMemory>
    ensures { IfOk result (λ call. call ≡ variables.append (error_outcome (wrong_number usage.now)) words.now) }
{
    match words {
        [name, key, pieces @ ..] => append_to(alloc, name, key, pieces),
        _ => wrong(alloc, usage),
    }
}

fn append_to(alloc: Global, name: &Text, key: &Text, pieces: &[Text]) -> Result<DictCall, NoMemory>
    ensures { IfOk result (λ call. call ≡ Variable name.now (Change.Append key.now pieces.now)) }
{
    let key = key.copy()?;
    let pieces = Texts::from_copies(alloc, pieces)?;
    variable(name, Change::Append { key, pieces })
}

/// `dict lappend`.
pub(crate) fn lappend(alloc: Global, usage: &[u8], words: &[Text]) -> Result<DictCall, NoMemory>
    ensures { IfOk result (λ call. call ≡ variables.lappend (error_outcome (wrong_number usage.now)) words.now) }
{
    match words {
        [name, key, items @ ..] => lappend_to(alloc, name, key, items),
        _ => wrong(alloc, usage),
    }
}

fn lappend_to(alloc: Global, name: &Text, key: &Text, items: &[Text]) -> Result<DictCall, NoMemory>
    ensures { IfOk result (λ call. call ≡ Variable name.now (Change.Lappend key.now items.now)) }
{
    let key = key.copy()?;
    let items = Texts::from_copies(alloc, items)?;
    variable(name, Change::Lappend { key, items })
}
