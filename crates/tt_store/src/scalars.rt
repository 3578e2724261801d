//! Commands on one variable (set(n), unset(n)).
ghost use Rattle.std.specs.Prelude.{◌≡◌, ◌≤◌, IfOk, length};
ghost use Rattle.std.specs.Option.{option_map};
ghost use Rattle.tt_store.specs.Scalars as scalars;

use crate::Store;
use crate::messages::cannot_unset;
use crate::spot::spot_of;
use std::alloc::Global;
use tt_calls::Outcome;
use tt_text::{NoMemory, Text};
use tt_value::{Value, texts_of};
use tt_vars::VarFault;

impl Store {
    #[inline(never)]
    pub(crate) fn set(&mut self, usage: &[u8], words: &[Value]) -> Result<Outcome, NoMemory>
        ensures { IfOk result (λ outcome. scalars.set_meaning usage.now words.now self.old outcome self.new) }
    {
        match words {
            [name] => {
                let name = name.to_text(self.alloc)?;
                self.read_word(&name)
            }
            [name, value] => {
                let name = name.to_text(self.alloc)?;
                self.give(&name, value.copy()?)
            }
            _ => self.refuse(usage),
        }
    }

    #[inline(never)]
    pub(crate) fn unset(&mut self, words: &[Value]) -> Result<Outcome, NoMemory>
        ensures { IfOk result (λ outcome.
            scalars.UnsetsIf (scalars.first_unknown words.now) words.now self.old outcome self.new) }
    {
        let words = texts_of(self.alloc, words)?;
        self.unset_by(words.as_slice())
    }

    fn unset_by(&mut self, words: &[Text]) -> Result<Outcome, NoMemory>
        ensures { IfOk result (λ outcome.
            scalars.UnsetsIf (scalars.first_unknown words.now) words.now self.old outcome self.new) }
    {
        match first_unknown(words) {
            Some(word) => Outcome::bad_option(self.alloc, word.as_bytes()),
            None => {
                let front = front(words);
                self.unset_all(front > 0, &words[front..])
            }
        }
    }

    fn unset_all(&mut self, nocomplain: bool, names: &[Text]) -> Result<Outcome, NoMemory>
        ensures { IfOk result (λ outcome. scalars.UnsetsAll nocomplain names.now self.old outcome self.new) }
    {
        let message = self.unset_each(nocomplain, names)?;
        let outcome = outcome_by(self.alloc, message)?;
        Ok(outcome)
    }

    // The message, if a variable can't be removed.
    fn unset_each(&mut self, nocomplain: bool, names: &[Text]) -> Result<Option<Text>, NoMemory>
        ensures { IfOk result (λ message. scalars.Unsets nocomplain names.now self.old message self.new) }
    {
        for name in names {
            if let Some(message) = self.unset_one(nocomplain, name)? {
                return Ok(Some(message));
            }
        }
        Ok(None)
    }

    fn unset_one(&mut self, nocomplain: bool, name: &Text) -> Result<Option<Text>, NoMemory>
        ensures { IfOk result (λ message. scalars.DropsOne nocomplain name.now self.old message self.new) }
    {
        let spot = spot_of(self.alloc, name.as_bytes())?;
        let removed = self.nesting.unset(&spot)?;
        match report_of(nocomplain, removed) {
            Some(fault) => Ok(Some(cannot_unset(self.alloc, name.as_bytes(), fault)?)),
            None => Ok(None),
        }
    }
}

fn report_of(nocomplain: bool, removed: Result<(), VarFault>) -> Option<VarFault>
    ensures { result ≡ scalars.report_of nocomplain removed }
{
    match removed {
        Err(fault) if !is_skipped(nocomplain, fault) => Some(fault),
        _ => None,
    }
}

/// The outcome of a command that has the empty result, or ends with an error of this message.
///
/// `NoMemory` if memory is refused.
pub fn outcome_by(alloc: Global, message: Option<Text>) -> Result<Outcome, NoMemory>
    ensures { IfOk result (λ outcome. outcome ≡ scalars.outcome_by message) }
{
    match message {
        None => Ok(Outcome::fine(alloc, Text::new(alloc))),
        Some(message) => Outcome::failed(message),
    }
}

fn is_skipped(nocomplain: bool, fault: VarFault) -> bool
    ensures { result ≡ scalars.is_skipped nocomplain fault }
{
    match fault {
        VarFault::NoSuchVariable | VarFault::NoSuchElement => nocomplain,
        VarFault::IsArray | VarFault::NotArray => false,
    }
}

fn is_nocomplain(word: &Text) -> bool
    ensures { result ≡ scalars.is_nocomplain word.now }
{
    word.as_bytes() == b"-nocomplain".as_slice()
}

fn is_meant(word: &Text) -> bool
    ensures { result ≡ scalars.is_meant word.now }
{
    matches!(word.as_bytes(), [b'-', _, ..])
}

fn first_unknown(words: &[Text]) -> Option<&Text>
    ensures { option_map (λ word. word.now) result ≡ scalars.first_unknown words.now }
{
    words
        .iter()
        .find(|word| is_meant(word) && !is_nocomplain(word))
}

fn front(words: &[Text]) -> usize
    ensures front { result ≡ scalars.front words.now }
    ensures within { result ≤ length words.now }
{
    words.iter().take_while(|word| is_nocomplain(word)).count()
}
