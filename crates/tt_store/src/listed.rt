//! The items of a list for variables (lassign(n)).
ghost use Rattle.std.specs.Prelude.{◌≡◌, IfOk, drop};
ghost use Rattle.tt_lists.specs.Reading.{split_of};
ghost use Rattle.tt_lists.specs.declared.items.Split.TheVariants.{Items};
ghost use Rattle.tt_store.specs.Listed as listed;

use crate::Store;
use crate::messages::cannot_set;
use crate::spot::spot_of;
use std::alloc::Global;
use tt_calls::Outcome;
use tt_text::{NoMemory, Text};
use tt_value::{Value, texts_of};
use tt_vars::Written;

impl Store {
    #[inline(never)]
    pub(crate) fn lassign(&mut self, usage: &[u8], words: &[Value]) -> Result<Outcome, NoMemory>
        ensures { IfOk result (λ outcome. listed.lassign usage.now words.now self.old outcome self.new) }
    {
        match words {
            [list, names @ ..] => {
                let names = texts_of(self.alloc, names)?;
                self.assign_list(list, names.as_slice())
            }
            [] => self.refuse(usage),
        }
    }

    fn assign_list(&mut self, list: &Value, names: &[Text]) -> Result<Outcome, NoMemory>
        ensures { IfOk result (λ outcome. listed.AssignsItems (split_of list.now) names.now self.old outcome self.new) }
    {
        match list.to_items(self.alloc)? {
            Ok(items) => self.assign_items(items.as_slice(), names),
            Err(fault) => Outcome::failed(fault.message(self.alloc)?),
        }
    }

    fn assign_items(&mut self, items: &[Text], names: &[Text]) -> Result<Outcome, NoMemory>
        ensures { IfOk result (λ outcome. listed.AssignsItems (Items items.now) names.now self.old outcome self.new) }
    {
        let message = self.assign(items, names)?;
        let outcome = rest_outcome(self.alloc, after(items, names.len()), message)?;
        Ok(outcome)
    }

    // The message, if a variable can't be set.
    fn assign(&mut self, items: &[Text], names: &[Text]) -> Result<Option<Text>, NoMemory>
        ensures { IfOk result (λ message.
            listed.Assigns (listed.names_with_items names.now items.now) self.old message self.new) }
    {
        let mut left = items;
        for name in names {
            let (item, rest) = first_item(self.alloc, left)?;
            left = rest;
            if let Some(message) = self.assign_one(name, item)? {
                return Ok(Some(message));
            }
        }
        Ok(None)
    }

    pub(crate) fn assign_one(&mut self, name: &Text, text: Text) -> Result<Option<Text>, NoMemory>
        ensures { IfOk result (λ message. listed.AssignsOne name.now text self.old message self.new) }
    {
        let spot = spot_of(self.alloc, name.as_bytes())?;
        let written = self.set_spot(&spot, Value::from_text(text))?;
        let message = message_of(self.alloc, name, written)?;
        Ok(message)
    }
}

fn message_of(alloc: Global, name: &Text, written: Written) -> Result<Option<Text>, NoMemory>
    ensures { IfOk result (λ message. message ≡ listed.message_of name.now written) }
{
    match written {
        Written::Yes => Ok(None),
        Written::No(fault) => Ok(Some(cannot_set(alloc, name.as_bytes(), fault)?)),
    }
}

fn first_item(alloc: Global, items: &[Text]) -> Result<(Text, &[Text]), NoMemory>
    ensures { IfOk result (λ parts. (parts.0 ≡ listed.first_of items.now) × (parts.1.now ≡ drop 1 items.now)) }
{
    match items {
        [item, rest @ ..] => Ok((item.copy()?, rest)),
        [] => Ok((Text::new(alloc), items)),
    }
}

fn after(items: &[Text], count: usize) -> &[Text]
    ensures { result.now ≡ drop count items.now }
{
    if count < items.len() {
        &items[count..]
    } else {
        &items[items.len()..]
    }
}

fn rest_outcome(alloc: Global, rest: &[Text], message: Option<Text>) -> Result<Outcome, NoMemory>
    ensures { IfOk result (λ outcome. outcome ≡ listed.rest_outcome rest.now message) }
{
    match message {
        None => Ok(Outcome::with_result(alloc, Value::from_copies(alloc, rest)?)),
        Some(message) => Outcome::failed(message),
    }
}
