ghost use Rattle.std.specs.Prelude.{◌≡◌, [], length, IfOk, OnOk, OnErr};
ghost use Rattle.std.specs.Map.{keys_of, values_of};
ghost use Rattle.std.specs.Option.{option_copied};
ghost use Rattle.tt_pairs.specs.PairLaws.{KeysDiffer};
ghost use Rattle.tt_pairs.specs.Pairs.{items_of, joined_pairs, text_of, value_of, with_pair, without_key};

use indexmap::IndexMap;
use std::alloc::Global;
use std::marker::Model;
use tt_lists::join_list;
use tt_text::{NoMemory, Text, Texts};

/// A dictionary (dict(n)): pairs of a key and a value, in order. Contracts see the list of them.
#[derive(Debug, Drop)]
pub struct Dictionary {
    map: IndexMap<Text, Text>,
}

impl Model for Dictionary {
    ghost use Rattle.std.specs.Prelude.{ℕ, List};
    ghost use Rattle.tt_pairs.specs.PairLaws.{KeysDiffer};

    ghost Value = { List (List ℕ × List ℕ) };

    ghost view = { λ dictionary. dictionary.map.entries };

    ghost invariant = { λ dictionary. KeysDiffer dictionary.map.entries };
}

impl Dictionary {
    /// No pairs. It takes no memory.
    #[tactic(auto, using(crate::proofs::PairLaws::no_keys))]
    pub fn new(alloc: Global) -> Self
        ensures empty { result ≡ [] }
    {
        Dictionary {
            map: IndexMap::new(alloc),
        }
    }

    /// The value of a key.
    pub fn get(&self, key: &Text) -> Option<&Text>
        ensures value { option_copied result ≡ value_of self.now key.now }
    {
        self.map.get(key)
    }

    /// Gives a key this value. A key that is there keeps its place, and a new one goes last.
    ///
    /// `NoMemory` if memory is refused; then the pairs are as they were.
    #[tactic(auto, using(crate::proofs::PairLaws::put_differ))]
    pub fn put(&mut self, key: Text, value: Text) -> Result<(), NoMemory>
        ensures put { OnOk result (self.new ≡ with_pair self.old key value) }
        ensures unchanged { OnErr result (self.new ≡ self.old) }
    {
        self.map.insert(key, value)?;
        Ok(())
    }

    /// Takes out the pair of a key, if there is one; those after it move up.
    #[tactic(auto, using(crate::proofs::PairLaws::removed_differ))]
    pub fn remove(&mut self, key: &Text)
        ensures removed { self.new ≡ without_key self.old key.now }
    {
        self.map.shift_remove(key);
    }

    /// Puts in the pairs of another dictionary, one after the other.
    ///
    /// `NoMemory` if memory is refused; then some of them may be there.
    pub fn join(&mut self, other: &Dictionary) -> Result<(), NoMemory>
        ensures joined_pairs { OnOk result (self.new ≡ joined_pairs self.old other.now) }
    {
        for (key, value) in &other.map {
            self.put(key.copy()?, value.copy()?)?;
        }
        Ok(())
    }

    /// What is known of the keys. Nothing runs here.
    pub fn keys_differ(&self)
        ensures differ { KeysDiffer self.now }
    {
        let _ = &self.map;
    }

    /// The same pairs once more, in time of their number.
    ///
    /// `NoMemory` if memory for them is refused.
    #[tactic(auto, using(crate::proofs::PairLaws::joined_alone))]
    pub fn copy(&self) -> Result<Self, NoMemory>
        ensures copied { IfOk result (λ copy. copy ≡ self.now) }
    {
        self.keys_differ();
        let mut copy = Dictionary::new(*self.map.allocator());
        copy.join(self)?;
        Ok(copy)
    }

    /// How many pairs there are.
    pub fn len(&self) -> usize
        ensures len { result ≡ length self.now }
    {
        self.map.len()
    }

    /// The keys, in order.
    ///
    /// `NoMemory` if memory for them is refused.
    pub fn keys(&self) -> Result<Texts, NoMemory>
        ensures keys { IfOk result (λ keys. keys ≡ keys_of self.now) }
    {
        let mut keys = Texts::new(*self.map.allocator());
        for key in self.map.keys() {
            keys.push(key.copy()?)?;
        }
        Ok(keys)
    }

    /// The values, in order.
    ///
    /// `NoMemory` if memory for them is refused.
    pub fn values(&self) -> Result<Texts, NoMemory>
        ensures values { IfOk result (λ values. values ≡ values_of self.now) }
    {
        let mut values = Texts::new(*self.map.allocator());
        for value in self.map.values() {
            values.push(value.copy()?)?;
        }
        Ok(values)
    }

    /// Each key, followed by its value.
    ///
    /// `NoMemory` if memory for them is refused.
    pub fn items(&self) -> Result<Texts, NoMemory>
        ensures items { IfOk result (λ items. items ≡ items_of self.now) }
    {
        let mut items = Texts::new(*self.map.allocator());
        for (key, value) in &self.map {
            items.push(key.copy()?)?;
            items.push(value.copy()?)?;
        }
        Ok(items)
    }

    /// The one canonical text: the list of the keys, each followed by its value.
    ///
    /// `NoMemory` if memory for it is refused.
    pub fn text(&self) -> Result<Text, NoMemory>
        ensures text { IfOk result (λ text. text ≡ text_of self.now) }
    {
        let items = self.items()?;
        join_list(*self.map.allocator(), items.as_slice())
    }
}
