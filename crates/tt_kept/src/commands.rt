//! The commands that an interpreter does itself (proc(n), info(n)).
ghost use Rattle.std.specs.Prelude.{◌≡◌, IfNone, IfOk, IfSome, IsTrue, None, bytes_eq, codes, drop};
ghost use Rattle.std.specs.Map.{lookup};
ghost use Rattle.tt_calls.specs.Outcomes.{fine};
ghost use Rattle.tt_dictionaries.specs.Commands as dictionaries;
ghost use Rattle.tt_kept.specs.Commands as commands;
ghost use Rattle.tt_kept.specs.declared.commands.Own.TheVariants as own;
ghost use Rattle.tt_store.specs.declared.answers.Answer.TheVariants as answers;
ghost use Rattle.tt_variable_commands.specs.ArrayCommands as arrays;
ghost use Rattle.tt_variable_commands.specs.LevelCommands as levels;

use crate::Kept;
use std::alloc::Global;
use tt_outcomes::Body;
use tt_procedures::Called;
use tt_script::plain_name;
use tt_store::{Answer, Store};
use tt_text::{NoMemory, Text};
use tt_value::{Value, texts_of};

/// Which of the commands on procedures words ask for.
#[derive(Clone, Copy, Debug, PartialEq, Eq)]
pub enum Own {
    /// proc(n).
    Define,
    /// `info procs` (info(n)).
    Names,
    /// Another command.
    Other,
}

impl Kept {
    /// The result of a command that is met often, its name first; none if the way of all others is to be taken, and then
    /// nothing has changed.
    pub(crate) fn run_often(&mut self, words: &[Value]) -> Option<Value>
        ensures some { IfSome result (λ value. commands.Runs words.now self.old (answers.Outcome (fine value)) self.new) }
        ensures none { IfNone result (self.new ≡ self.old) }
    {
        match words {
            [name, words @ ..] if self.is_own(name, b"set") => self.store.set_often(words),
            [name, words @ ..] if self.is_own(name, b"incr") => self.store.incr_often(words),
            _ => None,
        }
    }

    /// What a whole command comes to, its name first.
    pub(crate) fn run(&mut self, alloc: Global, words: &[Value]) -> Result<Answer, NoMemory>
        ensures { IfOk result (λ answer. commands.Runs words.now self.old answer self.new) }
    {
        match words {
            [name, words @ ..] if self.is_own(name, b"append") => {
                let outcome = self.store.append_often(words)?;
                Ok(Answer::Outcome(outcome))
            }
            [name, words @ ..] if self.is_own(name, b"lappend") => {
                let outcome = self.store.lappend_often(words)?;
                Ok(Answer::Outcome(outcome))
            }
            _ => self.run_any(alloc, words),
        }
    }

    // Whether a word is this name, and that of no procedure.
    fn is_own(&self, word: &Value, name: &[u8]) -> bool
        ensures name { IsTrue result → word.now ≡ name.now }
        ensures procedure { IsTrue result → lookup (bytes_eq name.now) self.now.procedures ≡ None }
    {
        match word.as_text() {
            Some(word) => word.as_bytes() == name && !self.procedures.has(word),
            None => false,
        }
    }

    #[inline(never)]
    fn run_any(&mut self, alloc: Global, words: &[Value]) -> Result<Answer, NoMemory>
        ensures { IfOk result (λ answer. commands.Runs words.now self.old answer self.new) }
    {
        match self.procedures.call(words)? {
            Some(called) => self.call(alloc, words, called),
            None => self.run_own(alloc, words),
        }
    }

    #[inline(never)]
    fn call(&mut self, alloc: Global, words: &[Value], called: Called) -> Result<Answer, NoMemory>
        ensures { IfOk result (λ answer. commands.CallsBody called words.now self.old answer self.new) }
    {
        match called {
            Called::Body { arguments, body } => {
                let name = first_word(alloc, words)?;
                self.store.call(arguments.as_slice())?;
                Ok(Answer::Body {
                    body: Body::Procedure { name },
                    text: body,
                })
            }
            Called::Wrong(outcome) => Ok(Answer::Outcome(outcome)),
        }
    }

    #[inline(never)]
    fn run_own(&mut self, alloc: Global, words: &[Value]) -> Result<Answer, NoMemory>
        ensures { IfOk result (λ answer.
            commands.RunsOwn (commands.own_of words.now) words.now self.old answer self.new) }
    {
        match own_of(alloc, words)? {
            Own::Define => self.define(alloc, words),
            Own::Names => self.names(alloc, words),
            Own::Other => on_variables(alloc, &mut self.store, words),
        }
    }

    #[inline(never)]
    fn define(&mut self, alloc: Global, words: &[Value]) -> Result<Answer, NoMemory>
        ensures { IfOk result (λ answer. commands.RunsOwn own.Define words.now self.old answer self.new) }
    {
        let words = texts_of(alloc, after(words, 1))?;
        Ok(Answer::Outcome(self.procedures.define(words.as_slice())?))
    }

    #[inline(never)]
    fn names(&mut self, alloc: Global, words: &[Value]) -> Result<Answer, NoMemory>
        ensures { IfOk result (λ answer. commands.RunsOwn own.Names words.now self.old answer self.new) }
    {
        let words = texts_of(alloc, after(words, 2))?;
        Ok(Answer::Outcome(self.procedures.names(words.as_slice())?))
    }
}

fn on_variables(alloc: Global, store: &mut Store, words: &[Value]) -> Result<Answer, NoMemory>
    ensures { IfOk result (λ answer. commands.OnVariables words.now store.old answer store.new) }
{
    match store.run(words)? {
        Answer::Other => on_levels(alloc, store, words),
        Answer::Outcome(outcome) => Ok(Answer::Outcome(outcome)),
        Answer::Body { body, text } => Ok(Answer::Body { body, text }),
    }
}

#[inline(never)]
fn on_levels(alloc: Global, store: &mut Store, words: &[Value]) -> Result<Answer, NoMemory>
    ensures { IfOk result (λ answer.
        commands.Either levels.Runs (commands.Either arrays.Runs dictionaries.Runs) words.now store.old answer
        store.new) }
{
    match tt_variable_commands::levels::run(alloc, store, words)? {
        Answer::Other => on_arrays(alloc, store, words),
        Answer::Outcome(outcome) => Ok(Answer::Outcome(outcome)),
        Answer::Body { body, text } => Ok(Answer::Body { body, text }),
    }
}

#[inline(never)]
fn on_arrays(alloc: Global, store: &mut Store, words: &[Value]) -> Result<Answer, NoMemory>
    ensures { IfOk result (λ answer.
        commands.Either arrays.Runs dictionaries.Runs words.now store.old answer store.new) }
{
    match tt_variable_commands::arrays::run(alloc, store, words)? {
        Answer::Other => tt_dictionaries::run(alloc, store, words),
        Answer::Outcome(outcome) => Ok(Answer::Outcome(outcome)),
        Answer::Body { body, text } => Ok(Answer::Body { body, text }),
    }
}

fn own_of(alloc: Global, words: &[Value]) -> Result<Own, NoMemory>
    ensures { IfOk result (λ own. own ≡ commands.own_of words.now) }
{
    if names_command(alloc, b"proc", words)? {
        Ok(Own::Define)
    } else if names_command(alloc, b"info", words)? && has_next(alloc, b"procs", words)? {
        Ok(Own::Names)
    } else {
        Ok(Own::Other)
    }
}

fn names_command(alloc: Global, name: &[u8], words: &[Value]) -> Result<bool, NoMemory>
    ensures { IfOk result (λ named. named ≡ commands.names_command name.now words.now) }
{
    match words {
        [word, ..] => match word.as_text() {
            Some(word) => Ok(plain_name(word.as_bytes()) == name),
            None => Ok(plain_name(word.to_text(alloc)?.as_bytes()) == name),
        },
        [] => Ok(false),
    }
}

fn has_next(alloc: Global, next: &[u8], words: &[Value]) -> Result<bool, NoMemory>
    ensures { IfOk result (λ has. has ≡ commands.has_next next.now words.now) }
{
    match words {
        [_, second, ..] => Ok(second.to_text(alloc)?.as_bytes() == next),
        _ => Ok(false),
    }
}

fn first_word(alloc: Global, words: &[Value]) -> Result<Text, NoMemory>
    ensures { IfOk result (λ word. word ≡ commands.first_word words.now) }
{
    match words {
        [word, ..] => word.to_text(alloc),
        [] => Ok(Text::new(alloc)),
    }
}

fn after(words: &[Value], count: usize) -> &[Value]
    ensures { result.now ≡ drop count words.now }
{
    if count < words.len() {
        &words[count..]
    } else {
        &words[words.len()..]
    }
}
