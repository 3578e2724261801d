//! Commands on a whole array.
ghost use Rattle.std.specs.Prelude.{◌≡◌, ◌==◌, ◌%◌, length, decimal, IfOk, OnOk};
ghost use Rattle.tt_calls.specs.declared.reply.Reply.TheVariants.{Refused, Value};
ghost use Rattle.tt_lists.specs.Messages.{list_message};
ghost use Rattle.tt_tsv.specs.Calls.{array_act, array_text, fills_from, keys_text, pairs_text, refills_from, resets, sets};
ghost use Rattle.tt_tsv.specs.Arrays.{elements_of};

use crate::Arrays;
use crate::telling::{empty, names_reply, not_asked, refused, truth};
use crate::usage::ArrayUsage;
use std::alloc::Global;
use tt_calls::Reply;
use tt_lists::{ListFault, Split, count_text, split};
use tt_text::{NoMemory, Text};

impl Arrays {
    /// The list of the keys of an array, each followed by its value, in the order of their first insertion, as
    /// `tsv::array get` gives it (tsv(n)). None exactly if there is no such array.
    ///
    /// `NoMemory` if memory for it is refused.
    pub fn text(&self, name: &[u8]) -> Result<Option<Text>, NoMemory>
        ensures text { IfOk result (λ text. text ≡ array_text self.now name.now) }
    {
        let name = Text::from_bytes(self.alloc, name)?;
        match self.find(&name) {
            Some(array) => Ok(Some(array.elements.text_like(&[])?)),
            None => Ok(None),
        }
    }

    /// What is asked of an array; a missing one counts as empty.
    pub(crate) fn array_call(
        &mut self,
        usage: ArrayUsage,
        name: &Text,
        words: &[Text],
    ) -> Result<Reply, NoMemory>
        ensures table { OnOk result (self.new ≡ (array_act self.old usage name.now words.now).table) }
        ensures reply { IfOk result (λ reply. reply ≡ (array_act self.old usage name.now words.now).reply) }
    {
        match usage {
            ArrayUsage::Unset => {
                self.unset(name);
                Ok(empty(self.alloc))
            }
            ArrayUsage::Exists => truth(self.alloc, self.find(name).is_some()),
            ArrayUsage::Set => self.set_elements(name, words),
            ArrayUsage::Get => self.tell_elements(name, words),
            ArrayUsage::Names => self.tell_keys(name, words),
            ArrayUsage::Size => self.tell_size(name),
            ArrayUsage::Reset => self.reset_elements(name, words),
        }
    }

    fn tell_elements(&self, name: &Text, pattern: &[Text]) -> Result<Reply, NoMemory>
        ensures { IfOk result (λ reply. reply ≡ Value (pairs_text self.now name.now pattern.now)) }
    {
        match self.find(name) {
            Some(array) => Ok(Reply::Value(array.elements.text_like(pattern)?)),
            None => Ok(empty(self.alloc)),
        }
    }

    fn tell_keys(&self, name: &Text, pattern: &[Text]) -> Result<Reply, NoMemory>
        ensures { IfOk result (λ reply. reply ≡ Value (keys_text self.now name.now pattern.now)) }
    {
        match self.find(name) {
            Some(array) => {
                let keys = array.elements.keys()?;
                names_reply(self.alloc, pattern, keys.as_slice())
            }
            None => Ok(empty(self.alloc)),
        }
    }

    fn size(&self, name: &Text) -> usize
        ensures { result ≡ length (elements_of self.now name.now) }
    {
        match self.find(name) {
            Some(array) => array.elements.len(),
            None => 0,
        }
    }

    fn tell_size(&self, name: &Text) -> Result<Reply, NoMemory>
        ensures { IfOk result (λ reply. reply ≡ Value (decimal (length (elements_of self.now name.now)))) }
    {
        let size = count_text(self.alloc, self.size(name))?;
        Ok(Reply::Value(size))
    }

    fn set_elements(&mut self, name: &Text, words: &[Text]) -> Result<Reply, NoMemory>
        ensures table { OnOk result (self.new ≡ (sets self.old name.now words.now).table) }
        ensures reply { IfOk result (λ reply. reply ≡ (sets self.old name.now words.now).reply) }
    {
        let [list] = words else {
            return Ok(not_asked(self.alloc));
        };
        match split(self.alloc, list.as_bytes())? {
            Split::Items(items) => self.fill_pairs(name, items.as_slice()),
            Split::Bad(fault) => no_list(self.alloc, &fault),
        }
    }

    fn reset_elements(&mut self, name: &Text, words: &[Text]) -> Result<Reply, NoMemory>
        ensures table { OnOk result (self.new ≡ (resets self.old name.now words.now).table) }
        ensures reply { IfOk result (λ reply. reply ≡ (resets self.old name.now words.now).reply) }
    {
        let [list] = words else {
            return Ok(not_asked(self.alloc));
        };
        match split(self.alloc, list.as_bytes())? {
            Split::Items(items) => self.refill_pairs(name, items.as_slice()),
            Split::Bad(fault) => no_list(self.alloc, &fault),
        }
    }

    fn fill_pairs(&mut self, name: &Text, items: &[Text]) -> Result<Reply, NoMemory>
        ensures table { OnOk result (self.new ≡ (fills_from self.old name.now items.now).table) }
        ensures reply { IfOk result (λ reply. reply ≡ (fills_from self.old name.now items.now).reply) }
    {
        if !is_paired(items) {
            return refused(self.alloc, b"list must have an even number of elements");
        }
        self.fill(name, items)?;
        Ok(empty(self.alloc))
    }

    fn refill_pairs(&mut self, name: &Text, items: &[Text]) -> Result<Reply, NoMemory>
        ensures table { OnOk result (self.new ≡ (refills_from self.old name.now items.now).table) }
        ensures reply { IfOk result (λ reply. reply ≡ (refills_from self.old name.now items.now).reply) }
    {
        if !is_paired(items) {
            return refused(self.alloc, b"list must have an even number of elements");
        }
        self.clear(name);
        self.fill(name, items)?;
        Ok(empty(self.alloc))
    }
}

fn no_list(alloc: Global, fault: &ListFault) -> Result<Reply, NoMemory>
    ensures { IfOk result (λ reply. reply ≡ Refused (list_message fault.now)) }
{
    let message = fault.message(alloc)?;
    Ok(Reply::Refused(message))
}

fn is_paired(items: &[Text]) -> bool
    ensures { result ≡ (length items.now % 2 == 0) }
{
    items.len() % 2 == 0
}
