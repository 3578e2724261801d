ghost use Rattle.std.specs.Prelude.{◌≡◌, [], ◌∷◌, IfOk, OnErr, bytes_eq, is_some};
ghost use Rattle.std.specs.List.{filter};
ghost use Rattle.std.specs.Map.{keys_of, lookup};
ghost use Rattle.std.specs.Option.{option_copied};
ghost use Rattle.tt_calls.specs.Outcomes.{fine};
ghost use Rattle.tt_lists.specs.Spelling.{list_of};
ghost use Rattle.tt_procedures.specs.Parameters.{parameters_of};
ghost use Rattle.tt_procedures.specs.Procedures as procedures;

use crate::calling::{Called, call_of};
use crate::procedure::{Parameters, Procedure};
use crate::reading::parameters_of;
use indexmap::IndexMap;
use std::alloc::Global;
use std::marker::Model;
use tt_calls::Outcome;
use tt_script::{global_name, plain_name};
use tt_text::{NoMemory, Text, Texts, glob};
use tt_value::Value;

/// Procedures by name, in the order of their first definition. Contracts see the list of pairs of a name and a
/// procedure.
#[derive(Debug, Drop)]
pub struct Procedures {
    map: IndexMap<Text, Procedure>,
}

impl Model for Procedures {
    ghost use Rattle.tt_procedures.specs.Procedures.{Table};

    ghost Value = { Table };

    ghost view = { λ procedures. procedures.map.entries };
}

impl Procedures {
    /// No procedures. It takes no memory.
    pub fn new(alloc: Global) -> Self
        ensures empty { result ≡ [] }
    {
        Procedures {
            map: IndexMap::new(alloc),
        }
    }

    /// `proc name args body` of proc(n), by the words after `proc`: a procedure is defined, anew if its name is taken,
    /// and the result is empty. One leading `::` of the name is dropped.
    ///
    /// The outcome is an error, and no procedure has changed, if there are not three words, if the parameters are no
    /// list, and if one of them is no list of a name or of a name and a default. Its name must not be empty, be
    /// an element's or begin with `::`.
    ///
    /// `NoMemory` if memory is refused; then no procedure has changed.
    pub fn define(&mut self, words: &[Text]) -> Result<Outcome, NoMemory>
        ensures defines { IfOk result (λ outcome. procedures.Defines words.now self.old outcome self.new) }
        ensures unchanged { OnErr result (self.new ≡ self.old) }
    {
        match words {
            [word, parameters, body] => self.define_by(word, parameters, body),
            _ => {
                let outcome = Outcome::wrong_number(*self.map.allocator(), b"proc name args body")?;
                Ok(outcome)
            }
        }
    }

    fn define_by(
        &mut self,
        word: &Text,
        parameters: &Text,
        body: &Text,
    ) -> Result<Outcome, NoMemory>
        ensures defines { IfOk result (λ outcome.
            procedures.DefinesBy (parameters_of parameters.now) word.now body.now self.old outcome self.new) }
        ensures unchanged { OnErr result (self.new ≡ self.old) }
    {
        let alloc = *self.map.allocator();
        match parameters_of(alloc, parameters.as_bytes())? {
            Ok(parameters) => self.put(word, parameters, body),
            Err(message) => Outcome::failed(message),
        }
    }

    fn put(&mut self, word: &Text, parameters: Parameters, body: &Text) -> Result<Outcome, NoMemory>
        ensures defines { IfOk result (λ outcome.
            procedures.DefinesBy (Ok parameters) word.now body.now self.old outcome self.new) }
        ensures unchanged { OnErr result (self.new ≡ self.old) }
    {
        let alloc = *self.map.allocator();
        let name = Text::from_bytes(alloc, plain_name(word.as_bytes()))?;
        let body = body.copy()?;
        self.map.insert(name, Procedure { parameters, body })?;
        Ok(Outcome::fine(alloc, Text::new(alloc)))
    }

    /// What a command, its name first, comes to as the call of a procedure (proc(n)). None if no procedure has that
    /// name, without one leading `::`, and if there are no words.
    ///
    /// `NoMemory` if memory is refused.
    pub fn call(&self, words: &[Value]) -> Result<Option<Called>, NoMemory>
        ensures called { IfOk result (λ called. called ≡ procedures.call self.now words.now) }
    {
        let [word, words @ ..] = words else {
            return Ok(None);
        };
        match word.as_text() {
            Some(word) => self.call_by(word, words),
            None => self.call_by(&word.to_text(*self.map.allocator())?, words),
        }
    }

    fn call_by(&self, word: &Text, words: &[Value]) -> Result<Option<Called>, NoMemory>
        ensures { IfOk result (λ called. called ≡ procedures.call self.now (word.now ∷ words.now)) }
    {
        match self.named_by(word)? {
            Some(procedure) => {
                let called = call_of(*self.map.allocator(), word, words, procedure)?;
                Ok(Some(called))
            }
            None => Ok(None),
        }
    }

    /// Whether there is a procedure of this name.
    pub fn has(&self, name: &Text) -> bool
        ensures { result ≡ is_some (lookup (bytes_eq name.now) self.now) }
    {
        !self.map.is_empty() && self.map.contains_key(name)
    }

    fn named_by(&self, word: &Text) -> Result<Option<&Procedure>, NoMemory>
        ensures { IfOk result (λ found. option_copied found ≡ procedures.procedure_named word.now self.now) }
    {
        match global_name(word.as_bytes()) {
            None => Ok(self.map.get(word)),
            Some(name) => {
                let name = Text::from_bytes(*self.map.allocator(), name)?;
                Ok(self.map.get(&name))
            }
        }
    }

    /// `info procs ?pattern?` of info(n), by the words after `procs`: the list of the names, in the order of their
    /// first definition, or of those that the pattern matches as string(n), `string match`, says.
    ///
    /// The outcome is an error if there are more words. `NoMemory` if memory is refused.
    pub fn names(&self, words: &[Text]) -> Result<Outcome, NoMemory>
        ensures names { IfOk result (λ outcome. outcome ≡ procedures.names self.now words.now) }
    {
        match words {
            [] => self.list_all(),
            [pattern] => self.list_like(pattern.as_bytes()),
            [_, _, ..] => {
                let outcome = Outcome::wrong_number(
                    *self.map.allocator(),
                    b"info procs ?pattern?",
                )?;
                Ok(outcome)
            }
        }
    }

    fn list_all(&self) -> Result<Outcome, NoMemory>
        ensures { IfOk result (λ outcome. outcome ≡ fine (list_of (keys_of self.now))) }
    {
        let names = self.all_names()?;
        let outcome = listed(*self.map.allocator(), names.as_slice())?;
        Ok(outcome)
    }

    fn list_like(&self, pattern: &[u8]) -> Result<Outcome, NoMemory>
        ensures { IfOk result (λ outcome.
            outcome ≡ fine (list_of (filter (procedures.is_like pattern.now) (keys_of self.now)))) }
    {
        let names = self.all_names()?;
        let like = names_like(*self.map.allocator(), pattern, names.as_slice())?;
        let outcome = listed(*self.map.allocator(), like.as_slice())?;
        Ok(outcome)
    }

    fn all_names(&self) -> Result<Texts, NoMemory>
        ensures { IfOk result (λ names. names ≡ keys_of self.now) }
    {
        let mut names = Texts::new(*self.map.allocator());
        for name in self.map.keys() {
            names.push(name.copy()?)?;
        }
        Ok(names)
    }
}

fn names_like(alloc: Global, pattern: &[u8], names: &[Text]) -> Result<Texts, NoMemory>
    ensures { IfOk result (λ like. like ≡ filter (procedures.is_like pattern.now) names.now) }
{
    let mut like = Texts::new(alloc);
    for name in names {
        if glob(pattern, name.as_bytes()) {
            like.push(name.copy()?)?;
        }
    }
    Ok(like)
}

fn listed(alloc: Global, names: &[Text]) -> Result<Outcome, NoMemory>
    ensures { IfOk result (λ outcome. outcome ≡ fine (list_of names.now)) }
{
    let list = Value::from_copies(alloc, names)?;
    Ok(Outcome::with_result(alloc, list))
}
