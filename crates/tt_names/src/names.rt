ghost use Rattle.std.specs.Prelude.{◌≡◌, ◌<◌, [], Some, None, length, remove, slice_get, IfSome, OnErr, OnOk};
ghost use Rattle.std.specs.Borrow.{sem};
ghost use Rattle.std.specs.Map.{values_of};
ghost use Rattle.std.specs.Option.{option_copied, option_copied_mut, option_map};
ghost use Rattle.tt_names.specs.Names.{Updates, place_of, under, with_name};

use crate::storage::Storage;
use std::alloc::Global;
use std::marker::Model;
use tt_text::{NoMemory, Text};

/// What stands under names. Contracts see the list of pairs of a name and what stands under it, in the order in which
/// the names came. A place is counted from 0.
///
/// Up to 16 names are searched one after the other, and more are hashed.
#[derive(Debug, Drop)]
pub struct Names<V> {
    storage: Storage<V>,
}

impl<V> Model for Names<V> {
    ghost use Rattle.std.specs.Prelude.{ℕ, List};
    ghost use Rattle.tt_names.specs.Names.{NamesDiffer};
    ghost use Rattle.tt_names.specs.inside.Stored.{stored_pairs};

    ghost Value = { List (List ℕ × V) };

    ghost view = { λ names. stored_pairs names.storage };

    ghost invariant = { λ names. NamesDiffer (stored_pairs names.storage) };
}

impl<V> Names<V> {
    ghost use Rattle.tt_names.specs.Lending.{lends_item, lends_name, lends_place};

    /// No names. It takes no memory.
    #[tactic(auto, using(crate::proofs::Changes::none_differ))]
    pub fn new(alloc: Global) -> Self
        ensures empty { result ≡ [] }
    {
        Names {
            storage: Storage::Few(Vec::new(alloc)),
        }
    }

    /// The allocator of the names.
    pub fn alloc(&self) -> Global {
        self.storage.alloc()
    }

    /// What stands under a name, or `None` exactly if nothing does.
    pub fn get(&self, name: &Text) -> Option<&V>
        ensures item { option_copied result ≡ under self.now name.now }
    {
        let (_, item) = self.find(name)?;
        Some(item)
    }

    /// The same as `get`. The place `hint` is looked at first: if the name stands there, nothing is searched.
    pub fn get_near(&self, name: &Text, hint: usize) -> Option<&V>
        ensures item { option_copied result ≡ under self.now name.now }
    {
        let (_, item) = self.find_near(name, hint)?;
        Some(item)
    }

    /// The place of a name and what stands there, or `None` exactly if there is no such name.
    #[tactic(auto, using(crate::proofs::Places::stands_at, crate::proofs::Places::stands_nowhere))]
    pub fn find(&self, name: &Text) -> Option<(usize, &V)>
        ensures place { option_map (λ found. found.0) result ≡ place_of self.now name.now }
        ensures item { option_map (λ found. found.1.now) result ≡ under self.now name.now }
    {
        let place = self.storage.place(name)?;
        Some((place, self.storage.item(place)))
    }

    /// The same as `find`. The place `hint` is looked at first: if the name stands there, nothing is searched.
    #[tactic(auto, using(crate::proofs::Places::stands_at, crate::proofs::Places::stands_nowhere))]
    pub fn find_near(&self, name: &Text, hint: usize) -> Option<(usize, &V)>
        ensures place { option_map (λ found. found.0) result ≡ place_of self.now name.now }
        ensures item { option_map (λ found. found.1.now) result ≡ under self.now name.now }
    {
        let place = self.storage.place_near(name, hint)?;
        Some((place, self.storage.item(place)))
    }

    /// What stands under a name, to be changed, or `None` exactly if nothing does.
    pub fn get_mut(&mut self, name: &Text) -> Option<&mut V>
        ensures* lent { sem 𝓛 (lends_name V.row self.entry name.now result) }
        ensures item { option_copied_mut result ≡ under self.old name.now }
    {
        match self.storage.place(name) {
            Some(place) => Some(self.item_mut(place)),
            None => None,
        }
    }

    /// The same as `get_mut`. The place `hint` is looked at first: if the name stands there, nothing is searched.
    pub fn get_mut_near(&mut self, name: &Text, hint: usize) -> Option<&mut V>
        ensures* lent { sem 𝓛 (lends_name V.row self.entry name.now result) }
        ensures item { option_copied_mut result ≡ under self.old name.now }
    {
        match self.storage.place_near(name, hint) {
            Some(place) => Some(self.item_mut(place)),
            None => None,
        }
    }

    /// What stands at a place, to be changed, or `None` exactly if there is no such place.
    pub fn at_mut(&mut self, place: usize) -> Option<&mut V>
        ensures* lent { sem 𝓛 (lends_place V.row self.entry place result) }
        ensures item { option_copied_mut result ≡ slice_get (values_of self.old) place }
    {
        if place < self.storage.len() {
            Some(self.item_mut(place))
        } else {
            None
        }
    }

    // What stands at a place that there is, to be changed.
    #[tactic(auto, using(crate::proofs::Changes::item_differ, crate::proofs::Changes::with_item))]
    fn item_mut(&mut self, place: usize) -> &mut V
        requires there { place < length self.old }
        ensures* lent { sem 𝓛 (lends_item V.row self.entry place result) }
        ensures item { slice_get (values_of self.old) place ≡ Some result.now }
    {
        self.storage.item_mut(place)
    }
}

impl<V: Drop> Names<V> {
    /// Puts an item under a name. A name that is there keeps its place, and a new one goes last.
    ///
    /// `NoMemory` if memory for it is refused; then the names are as they were.
    #[tactic(auto, using(crate::proofs::Changes::inserted_differ, crate::proofs::Changes::inserted_updates))]
    pub fn insert(&mut self, name: Text, item: V) -> Result<(), NoMemory>
        ensures inserted { OnOk result (self.new ≡ with_name self.old name item) }
        ensures updates { OnOk result (Updates self.old self.new name (Some item)) }
        ensures unchanged { OnErr result (self.new ≡ self.old) }
    {
        self.storage.insert(name, item)?;
        Ok(())
    }

    /// Takes out the name at a place, if there is one; those after it move up.
    #[tactic(auto, using(crate::proofs::Changes::less_differ, crate::proofs::Changes::less_updates))]
    pub fn remove_at(&mut self, place: usize)
        ensures removed { self.new ≡ remove self.old place }
        ensures updates { IfSome (slice_get self.old place) (λ pair. Updates self.old self.new pair.0 None) }
    {
        if place < self.storage.len() {
            self.storage.remove_at(place);
        }
    }

    /// Takes out all names.
    #[tactic(auto, using(crate::proofs::Changes::none_differ))]
    pub fn clear(&mut self)
        ensures cleared { self.new ≡ [] }
    {
        self.storage.clear();
    }
}
