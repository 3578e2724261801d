//! What a whole command comes to.
ghost use Rattle.std.specs.Prelude.{◌≡◌, ◌∷◌, IfOk, bytes_eq, codes};
ghost use Rattle.std.specs.Option.{option_map};
ghost use Rattle.tt_pure.specs.Table as pure_table;
ghost use Rattle.tt_store.specs.Commands as table;

use crate::command::{Command, command_of, row_of};
use crate::{Answer, Store};
use std::alloc::Global;
use tt_calls::Outcome;
use tt_list_commands::concat;
use tt_outcomes::Body;
use tt_pure::{is_pure, pure};
use tt_script::plain_name;
use tt_text::{NoMemory, Text, quoting};
use tt_value::{Value, texts_of};

impl Store {
    /// Runs a whole command, its name first: a command of the table, else one that
    /// answers by its words alone; `Other` if it is none of them, and then nothing has changed.
    ///
    /// After `Body` what is begun is ended by `leave`. `NoMemory` if memory is refused.
    pub fn run(&mut self, words: &[Value]) -> Result<Answer, NoMemory>
        ensures runs { IfOk result (λ answer. table.Runs words.now self.old answer self.new) }
    {
        match words {
            [word, words @ ..] => match word.as_text() {
                Some(word) => self.run_command(plain_name(word.as_bytes()), words),
                None => self.run_made(word, words),
            },
            [] => Ok(Answer::Outcome(Outcome::fine(self.alloc, Text::new(self.alloc)))),
        }
    }

    // A command whose name is made by a number or a list.
    #[inline(never)]
    fn run_made(&mut self, word: &Value, words: &[Value]) -> Result<Answer, NoMemory>
        ensures { IfOk result (λ answer. table.Runs (word.now ∷ words.now) self.old answer self.new) }
    {
        let word = word.to_text(self.alloc)?;
        self.run_command(plain_name(word.as_bytes()), words)
    }

    fn run_command(&mut self, name: &[u8], words: &[Value]) -> Result<Answer, NoMemory>
        ensures { IfOk result (λ answer.
            table.IsCommand (table.first_named table.commands name.now) name.now words.now self.old answer self.new) }
    {
        match command_of(name) {
            Some(command) => self.by_row(command, words),
            None => self.run_pure(name, words),
        }
    }

    fn run_pure(&self, name: &[u8], words: &[Value]) -> Result<Answer, NoMemory>
        ensures { IfOk result (λ answer.
            table.IsPure (pure_table.is_pure name.now) name.now words.now self.now answer self.now) }
    {
        if !is_pure(name) {
            return Ok(Answer::Other);
        }
        let outcome = pure(self.alloc, name, words)?;
        Ok(Answer::Outcome(outcome))
    }

    fn by_row(&mut self, command: Command, words: &[Value]) -> Result<Answer, NoMemory>
        ensures { IfOk result (λ answer. table.by_row (table.row_of command) words.now self.old answer self.new) }
    {
        let usage = row_of(command).usage;
        let outcome = match command {
            Command::Set => self.set(usage, words)?,
            Command::Unset => self.unset(words)?,
            Command::Incr => self.incr(usage, words)?,
            Command::Append => self.append(usage, words)?,
            Command::Lappend => self.lappend(usage, words)?,
            Command::Lassign => self.lassign(usage, words)?,
            Command::Eval => return self.eval(usage, words),
            Command::Package => self.package(usage, words)?,
            Command::Flush => self.flush(usage, words)?,
        };
        Ok(Answer::Outcome(outcome))
    }

    #[inline(never)]
    fn eval(&mut self, usage: &[u8], words: &[Value]) -> Result<Answer, NoMemory>
        ensures { IfOk result (λ answer. table.eval usage.now words.now self.old answer self.new) }
    {
        if words.is_empty() {
            return Ok(Answer::Outcome(Outcome::wrong_number(self.alloc, usage)?));
        }
        let words = texts_of(self.alloc, words)?;
        let text = concat(self.alloc, words.as_slice())?;
        self.nesting.begin_here()?;
        Ok(Answer::Body {
            body: Body::Plain,
            text,
        })
    }

    #[inline(never)]
    fn flush(&self, usage: &[u8], words: &[Value]) -> Result<Outcome, NoMemory>
        ensures { IfOk result (λ outcome. table.flush usage.now words.now self.now outcome self.now) }
    {
        match words {
            [_] => Ok(Outcome::fine(self.alloc, Text::new(self.alloc))),
            _ => self.refuse(usage),
        }
    }

    #[inline(never)]
    fn package(&self, usage: &[u8], words: &[Value]) -> Result<Outcome, NoMemory>
        ensures { IfOk result (λ outcome. table.package_require usage.now words.now self.now outcome self.now) }
    {
        let words = texts_of(self.alloc, words)?;
        match words.as_slice() {
            [word, words @ ..] => self.package_by(is_require(word), usage, word, words),
            [] => self.refuse(usage),
        }
    }

    fn package_by(
        &self,
        known: bool,
        usage: &[u8],
        word: &Text,
        words: &[Text],
    ) -> Result<Outcome, NoMemory>
        ensures { IfOk result (λ outcome.
            table.PackageBy known usage.now word.now words.now self.now outcome self.now) }
    {
        if !known {
            return Outcome::bad_option(self.alloc, word.as_bytes());
        }
        match words {
            [name] => required(self.alloc, name),
            [name, _] => required(self.alloc, name),
            _ => self.refuse(usage),
        }
    }
}

fn is_require(word: &Text) -> bool
    ensures { result ≡ bytes_eq word.now (codes "require") }
{
    word.as_bytes() == b"require".as_slice()
}

fn version_of(name: &Text) -> Option<&'static [u8]>
    ensures { option_map (λ version. version.now) result ≡ table.version_of name.now }
{
    if name.as_bytes() == b"Thread".as_slice() {
        Some(b"2.8")
    } else if name.as_bytes() == b"Tcl".as_slice() {
        Some(b"8.6")
    } else {
        None
    }
}

fn required(alloc: Global, name: &Text) -> Result<Outcome, NoMemory>
    ensures { IfOk result (λ outcome. outcome ≡ table.package_answer name.now (table.version_of name.now)) }
{
    match version_of(name) {
        Some(version) => Ok(Outcome::fine(alloc, Text::from_bytes(alloc, version)?)),
        None => {
            let message = quoting(alloc, b"can't find package ", name.as_bytes(), b"")?;
            let outcome = Outcome::failed(message)?;
            Ok(outcome)
        }
    }
}
