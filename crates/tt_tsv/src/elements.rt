ghost use Rattle.std.specs.Prelude.{◌≡◌, ◌<◌, [], length, bytes_eq, IfOk, IfSome, OnOk};
ghost use Rattle.std.specs.Map.{keys_of, lookup, remove_entry};
ghost use Rattle.std.specs.Option.{option_copied, option_map};
ghost use Rattle.indexmap.specs.IndexMap.{insert_entry};
ghost use Rattle.tt_lists.specs.Spelling.{list_of};
ghost use Rattle.tt_tsv.specs.Calls.{pairs_like};
ghost use Rattle.tt_tsv.specs.Arrays.{pairs_with_items};
ghost use Rattle.tt_tsv.specs.Elements.{change_of};
ghost use Rattle.tt_tsv.specs.inside.Changed.{elements_left};
ghost use Rattle.tt_tsv.specs.inside.Pairs.{first_pair};

use crate::change::{Change, change_of};
use crate::telling::is_like;
use crate::usage::ElementUsage;
use indexmap::IndexMap;
use std::alloc::Global;
use std::marker::Model;
use tt_lists::join_list;
use tt_text::{NoMemory, Text, Texts};
use tt_value::Value;

/// The elements of an array, in the order of their first insertion. A value keeps what it was read as. Contracts see
/// the list of pairs of a key and a value's text.
#[derive(Debug, Drop)]
pub struct Elements {
    map: IndexMap<Text, Value>,
}

impl Model for Elements {
    ghost use Rattle.std.specs.Prelude.{ℕ, List};

    ghost Value = { List (List ℕ × List ℕ) };

    ghost view = { λ elements. elements.map.entries };
}

impl Elements {
    /// No elements. It takes no memory.
    pub(crate) fn new(alloc: Global) -> Self
        ensures { result ≡ [] }
    {
        Elements {
            map: IndexMap::new(alloc),
        }
    }

    /// The value of a key.
    pub(crate) fn get(&self, key: &Text) -> Option<&Value>
        ensures { option_copied result ≡ lookup (bytes_eq key.now) self.now }
    {
        self.map.get(key)
    }

    /// Gives a key this value. A key that is there keeps its place, and a new one goes last.
    pub(crate) fn put(&mut self, key: Text, value: Value) -> Result<(), NoMemory>
        ensures { OnOk result (self.new ≡ insert_entry bytes_eq self.old key value) }
    {
        self.map.insert(key, value)?;
        Ok(())
    }

    /// Changes the value of a key where it stands; `None` if there is no such key.
    #[tactic(auto, using(crate::proofs::Changing::in_elements))]
    pub(crate) fn change(
        &mut self,
        key: &Text,
        usage: ElementUsage,
        words: &[Text],
    ) -> Result<Option<Change>, NoMemory>
        ensures change { IfOk result (λ change.
            change ≡ option_map (λ value. change_of usage value words.now) (lookup (bytes_eq key.now) self.old)) }
        ensures left { IfOk result (λ change. self.new ≡ elements_left key.now change self.old) }
    {
        let alloc = *self.map.allocator();
        let Some(value) = self.map.get_mut(key) else {
            return Ok(None);
        };
        let change = change_of(alloc, usage, value, words)?;
        Ok(Some(change))
    }

    /// Takes out the element of a key; those after it move up.
    pub(crate) fn remove(&mut self, key: &Text)
        ensures { self.new ≡ remove_entry (bytes_eq key.now) self.old }
    {
        self.map.shift_remove(key);
    }

    /// How many there are.
    pub(crate) fn len(&self) -> usize
        ensures { result ≡ length self.now }
    {
        self.map.len()
    }

    /// The keys, in order.
    pub(crate) fn keys(&self) -> Result<Texts, NoMemory>
        ensures { IfOk result (λ keys. keys ≡ keys_of self.now) }
    {
        let mut keys = Texts::new(*self.map.allocator());
        for key in self.map.keys() {
            keys.push(key.copy()?)?;
        }
        Ok(keys)
    }

    /// The keys that are like the pattern, if there is one, each followed by its value.
    pub(crate) fn pairs_like(&self, pattern: &[Text]) -> Result<Texts, NoMemory>
        ensures { IfOk result (λ pairs. pairs ≡ pairs_like pattern.now self.now) }
    {
        let alloc = *self.map.allocator();
        let mut pairs = Texts::new(alloc);
        for (key, value) in &self.map {
            if is_like(pattern, key.as_bytes()) {
                pairs.push(key.copy()?)?;
                pairs.push(value.to_text(alloc)?)?;
            }
        }
        Ok(pairs)
    }

    /// The list of those pairs.
    pub(crate) fn text_like(&self, pattern: &[Text]) -> Result<Text, NoMemory>
        ensures { IfOk result (λ text. text ≡ list_of (pairs_like pattern.now self.now)) }
    {
        let pairs = self.pairs_like(pattern)?;
        join_list(*self.map.allocator(), pairs.as_slice())
    }

    /// Puts in the elements of a list of keys and values.
    #[tactic(auto, using(crate::proofs::Filling::filled_more, crate::proofs::Filling::filled_all))]
    pub(crate) fn fill(&mut self, items: &[Text]) -> Result<(), NoMemory>
        ensures { OnOk result (self.new ≡ pairs_with_items self.old items.now) }
    {
        let mut left = items;
        'pairs: while let Some((key, value, later)) = first_pair(left) {
            self.put(key.copy()?, Value::from_text(value.copy()?))?;
            left = later;
        }
        Ok(())
    }
}

// The first two items, and those after them.
fn first_pair(items: &[Text]) -> Option<(&Text, &Text, &[Text])>
    ensures pair { option_map (λ parts. (parts.0.now, parts.1.now, parts.2.now)) result ≡ first_pair items.now }
    ensures shorter { IfSome result (λ parts. length parts.2.now < length items.now) }
{
    match items {
        [key, value, later @ ..] => Some((key, value, later)),
        _ => None,
    }
}
