ghost use Rattle.std.specs.Prelude.{◌≡◌, [], bytes_eq, IfOk, OnOk};
ghost use Rattle.std.specs.Map.{keys_of};
ghost use Rattle.std.specs.Option.{option_copied, option_map};
ghost use Rattle.indexmap.specs.IndexMap.{insert_entry};
ghost use Rattle.tt_tsv.specs.Calls.{is_held_by_other, is_own, unsets, waits};
ghost use Rattle.tt_tsv.specs.Arrays.{array_with_items, array_of, table_with_change, element_of};
ghost use Rattle.tt_tsv.specs.Arrays.{array_without_elements, array_with_hold, is_held, array_without_hold};
ghost use Rattle.tt_tsv.specs.Arrays.{with_array};
ghost use Rattle.tt_tsv.specs.Arrays.{with_element, without_array, without_element};
ghost use Rattle.tt_tsv.specs.Elements.{change_of};
ghost use Rattle.tt_tsv.specs.inside.Changed.{table_left};

use crate::Array;
use crate::change::Change;
use crate::usage::ElementUsage;
use crate::words::array_in;
use indexmap::IndexMap;
use std::alloc::Global;
use std::marker::Model;
use tt_calls::TsvCall;
use tt_text::{NoMemory, Text, Texts};
use tt_value::Value;

/// The shared arrays. Contracts see the list of them, each under its name, in the order in which they were made.
#[derive(Debug, Drop)]
pub struct Arrays {
    arrays: IndexMap<Text, Array>,
    pub(crate) alloc: Global,
}

impl Model for Arrays {
    ghost use Rattle.std.specs.Prelude.{ℕ, List};
    ghost use Rattle.tt_tsv.specs.declared.array.Array.{Array as AnyArray};

    ghost Value = { List (List ℕ × AnyArray) };

    ghost view = { λ arrays. arrays.arrays.entries };
}

impl Arrays {
    /// No arrays. It takes no memory.
    pub fn new(alloc: Global) -> Self
        ensures empty { result ≡ [] }
    {
        Arrays {
            arrays: IndexMap::new(alloc),
            alloc,
        }
    }

    /// Whether the thread has to wait before its call is done: while another thread holds the array that the call is
    /// on. It takes no memory.
    pub fn waits(&self, thread: u32, call: &TsvCall) -> bool
        ensures waits { result ≡ waits self.now thread call.now }
    {
        match call {
            TsvCall::Hold { array } | TsvCall::Unhold { array } => {
                self.is_held_by_other(thread, array)
            }
            TsvCall::Run { words } => match array_in(words.as_slice()) {
                Some(array) => self.is_held_by_other(thread, array),
                None => false,
            },
        }
    }

    fn is_held_by_other(&self, thread: u32, name: &Text) -> bool
        ensures { result ≡ is_held_by_other thread (array_of self.now name.now) }
    {
        match self.find(name) {
            Some(array) => array.is_held_by_other(thread),
            None => false,
        }
    }

    pub(crate) fn find(&self, name: &Text) -> Option<&Array>
        ensures { option_copied result ≡ array_of self.now name.now }
    {
        self.arrays.get(name)
    }

    pub(crate) fn element(&self, name: &Text, key: &Text) -> Option<&Value>
        ensures { option_copied result ≡ element_of self.now name.now key.now }
    {
        match self.find(name) {
            Some(array) => array.elements.get(key),
            None => None,
        }
    }

    // The names, in order.
    pub(crate) fn names(&self) -> Result<Texts, NoMemory>
        ensures { IfOk result (λ names. names ≡ keys_of self.now) }
    {
        let mut names = Texts::new(self.alloc);
        for name in self.arrays.keys() {
            names.push(name.copy()?)?;
        }
        Ok(names)
    }

    fn add(&mut self, name: &Text, array: Array) -> Result<(), NoMemory>
        ensures { OnOk result (self.new ≡ insert_entry bytes_eq self.old name.now array) }
    {
        self.arrays.insert(name.copy()?, array)?;
        Ok(())
    }

    // Gives an element this value; a missing array is made.
    pub(crate) fn put(&mut self, name: &Text, key: &Text, value: Value) -> Result<(), NoMemory>
        ensures { OnOk result (self.new ≡ with_array (with_element key.now value) self.old name.now) }
    {
        match self.arrays.get_mut(name) {
            Some(array) => array.put(key, value),
            None => {
                let mut array = Array::new(self.alloc);
                array.put(key, value)?;
                self.add(name, array)
            }
        }
    }

    // Changes an element where it stands; `None` if there is no such element.
    #[tactic(auto, using(crate::proofs::Changing::in_table, crate::proofs::Changing::of_array, crate::proofs::Changing::of_none))]
    pub(crate) fn change_there(
        &mut self,
        name: &Text,
        key: &Text,
        usage: ElementUsage,
        words: &[Text],
    ) -> Result<Option<Change>, NoMemory>
        ensures change { IfOk result (λ change. change ≡ option_map (λ value. change_of usage value words.now)
            (element_of self.old name.now key.now)) }
        ensures left { IfOk result (λ change. self.new ≡ table_left self.old name.now key.now change) }
    {
        match self.arrays.get_mut(name) {
            Some(array) => array.change(key, usage, words),
            None => Ok(None),
        }
    }

    pub(crate) fn remove(&mut self, name: &Text, key: &Text)
        ensures { self.new ≡ table_with_change (without_element key.now) self.old name.now }
    {
        if let Some(array) = self.arrays.get_mut(name) {
            array.remove(key);
        }
    }

    // Puts in elements; a missing array is made.
    pub(crate) fn fill(&mut self, name: &Text, items: &[Text]) -> Result<(), NoMemory>
        ensures { OnOk result (self.new ≡ with_array (array_with_items items.now) self.old name.now) }
    {
        match self.arrays.get_mut(name) {
            Some(array) => array.fill(items),
            None => {
                let mut array = Array::new(self.alloc);
                array.fill(items)?;
                self.add(name, array)
            }
        }
    }

    // A held array is emptied, and another removed.
    pub(crate) fn unset(&mut self, name: &Text)
        ensures { self.new ≡ unsets self.old name.now (array_of self.old name.now) }
    {
        match self.is_held(name) {
            Some(true) => self.clear(name),
            Some(false) => self.drop_array(name),
            None => {}
        }
    }

    // Whether a thread holds it; `None` if there is no such array.
    fn is_held(&self, name: &Text) -> Option<bool>
        ensures { result ≡ option_map is_held (array_of self.now name.now) }
    {
        match self.find(name) {
            Some(array) => Some(array.is_held()),
            None => None,
        }
    }

    fn drop_array(&mut self, name: &Text)
        ensures { self.new ≡ without_array self.old name.now }
    {
        self.arrays.shift_remove(name);
    }

    // No elements any more.
    pub(crate) fn clear(&mut self, name: &Text)
        ensures { self.new ≡ table_with_change array_without_elements self.old name.now }
    {
        let alloc = self.alloc;
        if let Some(array) = self.arrays.get_mut(name) {
            array.clear(alloc);
        }
    }

    // One hold more, which makes a missing array.
    pub(crate) fn hold(&mut self, thread: u32, name: &Text) -> Result<(), NoMemory>
        ensures { OnOk result (self.new ≡ with_array (array_with_hold thread) self.old name.now) }
    {
        match self.arrays.get_mut(name) {
            Some(array) => { array.hold(thread) }
            None => {
                let mut array = Array::new(self.alloc);
                array.hold(thread)?;
                self.add(name, array)
            }
        }
    }

    // Whether this thread holds it.
    pub(crate) fn is_held_by(&self, thread: u32, name: &Text) -> bool
        ensures { result ≡ is_own thread (array_of self.now name.now) }
    {
        match self.find(name) {
            Some(array) => array.is_held_by(thread),
            None => false,
        }
    }

    // One hold less.
    pub(crate) fn let_go(&mut self, name: &Text)
        ensures { self.new ≡ table_with_change array_without_hold self.old name.now }
    {
        if let Some(array) = self.arrays.get_mut(name) {
            array.let_go();
        }
    }
}
