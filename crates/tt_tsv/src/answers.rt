ghost use Rattle.std.specs.Prelude.{◌≡◌, IfOk, OnOk};
ghost use Rattle.tt_tsv.specs.Calls.{act, changes, changes_by, holds, moves, usage_answer, asked_answer, step_after};
ghost use Rattle.tt_tsv.specs.Calls.{table_after};
ghost use Rattle.tt_tsv.specs.Calls.{unholds};
ghost use Rattle.tt_tsv.specs.Elements.{change_of_missing, missing_as};
ghost use Rattle.tt_tsv.specs.inside.Changed.{reply_of, table_ended};
ghost use Rattle.tt_tsv.specs.Words.{usage_of_words};

use crate::Arrays;
use crate::change::{Change, change_of, missing_as};
use crate::telling::{empty, exists, found, list_reply, missing, names_reply, not_asked, truth};
use crate::usage::{ElementUsage, Usage};
use crate::words::asked;
use tt_calls::{Reply, Step, TsvCall};
use tt_text::{NoMemory, Text};
use tt_value::Value;

impl Arrays {
    /// What a call of a thread on shared variables does, and its reply; `Wait` exactly if it has to wait, and then
    /// nothing is done (tsv(n)). Words that no command has are refused with the empty text. A call that is refused
    /// changes nothing.
    ///
    /// `NoMemory` if memory for an element or the reply is refused; then the arrays are only fit to be dropped.
    pub fn apply(&mut self, thread: u32, call: &TsvCall) -> Result<Step, NoMemory>
        ensures table { OnOk result (self.new ≡ table_after self.old thread call.now) }
        ensures step { IfOk result (λ step. step ≡ step_after self.old thread call.now) }
    {
        if self.waits(thread, call) {
            return Ok(Step::Wait);
        }
        let reply = self.act(thread, call)?;
        Ok(Step::Reply(reply))
    }

    fn act(&mut self, thread: u32, call: &TsvCall) -> Result<Reply, NoMemory>
        ensures table { OnOk result (self.new ≡ (act self.old thread call.now).table) }
        ensures reply { IfOk result (λ reply. reply ≡ (act self.old thread call.now).reply) }
    {
        match call {
            TsvCall::Hold { array } => {
                self.hold(thread, array)?;
                Ok(Reply::Go)
            }
            TsvCall::Unhold { array } => Ok(self.end_hold(thread, array)),
            TsvCall::Run { words } => self.run_words(words.as_slice()),
        }
    }

    fn end_hold(&mut self, thread: u32, name: &Text) -> Reply
        ensures table { self.new ≡ (unholds self.old thread name.now).table }
        ensures reply { result ≡ (unholds self.old thread name.now).reply }
    {
        if !self.is_held_by(thread, name) {
            return not_asked(self.alloc);
        }
        self.let_go(name);
        Reply::Go
    }

    fn run_words(&mut self, words: &[Text]) -> Result<Reply, NoMemory>
        ensures table { OnOk result (self.new ≡ (asked_answer self.old (usage_of_words words.now)).table) }
        ensures reply { IfOk result (λ reply. reply ≡ (asked_answer self.old (usage_of_words words.now)).reply) }
    {
        match asked(words) {
            Some((usage, words)) => self.run(usage, words),
            None => Ok(not_asked(self.alloc)),
        }
    }

    fn run(&mut self, usage: Usage, words: &[Text]) -> Result<Reply, NoMemory>
        ensures table { OnOk result (self.new ≡ (usage_answer self.old usage words.now).table) }
        ensures reply { IfOk result (λ reply. reply ≡ (usage_answer self.old usage words.now).reply) }
    {
        match (usage, words) {
            (Usage::Names, _) => {
                let names = self.names()?;
                names_reply(self.alloc, words, names.as_slice())
            }
            (Usage::Find, [name, key, ..]) => found(self.alloc, self.element(name, key)),
            (Usage::Exists, [name, key, ..]) => truth(
                self.alloc,
                self.element(name, key).is_some(),
            ),
            (Usage::Move, [name, key, new, ..]) => self.move_element(name, key, new),
            (Usage::Array(usage), [name, words @ ..]) => self.array_call(usage, name, words),
            (Usage::Element(usage), [name, key, words @ ..]) => {
                self.element_call(usage, name, key, words)
            }
            _ => Ok(not_asked(self.alloc)),
        }
    }

    #[tactic(auto, using(crate::proofs::Changing::table_there, crate::proofs::Changing::reply_there, crate::proofs::Changing::missing_there))]
    fn element_call(
        &mut self,
        usage: ElementUsage,
        name: &Text,
        key: &Text,
        words: &[Text],
    ) -> Result<Reply, NoMemory>
        ensures table { OnOk result (self.new ≡ (changes_by self.old usage name.now key.now words.now).table) }
        ensures reply { IfOk result (λ reply. reply ≡ (changes_by self.old usage name.now key.now words.now).reply) }
    {
        match self.change_there(name, key, usage, words)? {
            Some(change) => Ok(self.end_change(name, key, change)),
            None => self.change_missing(usage, name, key, words),
        }
    }

    // After an element was changed where it stood.
    fn end_change(&mut self, name: &Text, key: &Text, change: Change) -> Reply
        ensures table { self.new ≡ table_ended self.old name.now key.now change }
        ensures reply { result ≡ reply_of change }
    {
        match change {
            Change::Kept(answer) => list_reply(answer),
            Change::Put(_, answer) => Reply::Value(answer),
            Change::Removed(answer) => {
                self.remove(name, key);
                Reply::Value(answer)
            }
        }
    }

    fn change_missing(
        &mut self,
        usage: ElementUsage,
        name: &Text,
        key: &Text,
        words: &[Text],
    ) -> Result<Reply, NoMemory>
        ensures table { OnOk result (self.new ≡ (changes self.old name.now key.now
            (change_of_missing name.now key.now usage words.now (missing_as usage))).table) }
        ensures reply { IfOk result (λ reply. reply ≡ (changes self.old name.now key.now
            (change_of_missing name.now key.now usage words.now (missing_as usage))).reply) }
    {
        let Some(text) = missing_as(usage) else {
            return missing(self.alloc, name, key);
        };
        let text = Text::from_bytes(self.alloc, text)?;
        let mut value = Value::from_text(text);
        let change = change_of(self.alloc, usage, &mut value, words)?;
        self.change(name, key, change)
    }

    fn change(&mut self, name: &Text, key: &Text, change: Change) -> Result<Reply, NoMemory>
        ensures table { OnOk result (self.new ≡ (changes self.old name.now key.now change).table) }
        ensures reply { IfOk result (λ reply. reply ≡ (changes self.old name.now key.now change).reply) }
    {
        match change {
            Change::Kept(answer) => Ok(list_reply(answer)),
            Change::Put(value, answer) => {
                self.put(name, key, value)?;
                Ok(Reply::Value(answer))
            }
            Change::Removed(answer) => {
                self.remove(name, key);
                Ok(Reply::Value(answer))
            }
        }
    }

    // An element goes last under a new key.
    fn move_element(&mut self, name: &Text, old: &Text, new: &Text) -> Result<Reply, NoMemory>
        ensures table { OnOk result (self.new ≡ (moves self.old name.now old.now new.now).table) }
        ensures reply { IfOk result (λ reply. reply ≡ (moves self.old name.now old.now new.now).reply) }
    {
        let value = match self.element(name, old) {
            Some(value) => value.copy()?,
            None => return missing(self.alloc, name, old),
        };
        if self.element(name, new).is_some() {
            return exists(self.alloc, new);
        }
        self.remove(name, old);
        self.put(name, new, value)?;
        Ok(empty(self.alloc))
    }
}
