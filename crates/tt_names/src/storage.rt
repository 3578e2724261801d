ghost use Rattle.std.specs.Prelude.{◌≡◌, ◌<◌, [], None, Some, length, remove, slice_get, IfSome, OnErr, OnOk};
ghost use Rattle.std.specs.Borrow.{sem};
ghost use Rattle.std.specs.Map.{keys_of, values_of};
ghost use Rattle.std.specs.Option.{option_copied};
ghost use Rattle.tt_names.specs.Names.{NamesDiffer, place_of, under, with_name};
ghost use Rattle.tt_names.specs.inside.Lent.{lends_stored};
ghost use Rattle.tt_names.specs.inside.Stored.{stored_pairs};

use crate::few;
use crate::moving::moved;
use indexmap::IndexMap;
use std::alloc::Global;
use std::mem::replace;
use tt_text::{NoMemory, Text};

/// How many names are searched; more are hashed.
const FEW: usize = 16;

/// How names are stored, in order, with what stands under them.
#[derive(Debug, Drop)]
pub(crate) enum Storage<V> {
    /// In a list that is searched from its start.
    Few(Vec<(Text, V)>),
    /// In a map that hashes them.
    Many(IndexMap<Text, V>),
}

impl<V> Storage<V> {
    /// The allocator of what is stored.
    pub(crate) fn alloc(&self) -> Global {
        match self {
            Storage::Few(pairs) => *pairs.allocator(),
            Storage::Many(map) => *map.allocator(),
        }
    }

    /// How many names there are.
    pub(crate) fn len(&self) -> usize
        ensures len { result ≡ length (stored_pairs self.now) }
    {
        match self {
            Storage::Few(pairs) => pairs.len(),
            Storage::Many(map) => map.len(),
        }
    }

    /// Which of the names it is, counted from 0.
    pub(crate) fn place(&self, name: &Text) -> Option<usize>
        ensures place { result ≡ place_of (stored_pairs self.now) name.now }
        ensures within { IfSome result (λ place. place < length (stored_pairs self.now)) }
    {
        match self {
            Storage::Few(pairs) => few::place_of(pairs.as_slice(), name),
            Storage::Many(map) => hashed_place_of(map, name),
        }
    }

    /// Which of the names it is, counted from 0: the one at this place is looked at first.
    pub(crate) fn place_near(&self, name: &Text, hint: usize) -> Option<usize>
        requires differ { NamesDiffer (stored_pairs self.now) }
        ensures place { result ≡ place_of (stored_pairs self.now) name.now }
        ensures within { IfSome result (λ place. place < length (stored_pairs self.now)) }
    {
        match self.name_at(hint) {
            Some(there) if *there == *name => Some(hint),
            _ => self.place(name),
        }
    }

    // The name at a place, if there is one.
    #[tactic(auto, using(crate::proofs::Changes::key_there, crate::proofs::Changes::key_nowhere))]
    fn name_at(&self, place: usize) -> Option<&Text>
        ensures name { option_copied result ≡ slice_get (keys_of (stored_pairs self.now)) place }
    {
        match self {
            Storage::Few(pairs) if place < pairs.len() => Some(&pairs[place].0),
            Storage::Few(_) => None,
            Storage::Many(map) => {
                let (name, _) = map.get_index(place)?;
                Some(name)
            }
        }
    }

    /// What stands at a place that there is.
    pub(crate) fn item(&self, place: usize) -> &V
        requires there { place < length (stored_pairs self.now) }
        ensures item { slice_get (values_of (stored_pairs self.now)) place ≡ Some result.now }
    {
        match self {
            Storage::Few(pairs) => &pairs[place].1,
            Storage::Many(map) => &map[place],
        }
    }

    /// What stands at a place that there is, to be changed.
    pub(crate) fn item_mut(&mut self, place: usize) -> &mut V
        requires there { place < length (stored_pairs self.old) }
        ensures* lent { sem 𝓛 (lends_stored V.row self.entry place result) }
        ensures item { slice_get (values_of (stored_pairs self.old)) place ≡ Some result.now }
    {
        match self {
            Storage::Few(pairs) => {
                let pair = &mut pairs[place];
                &mut pair.1
            }
            Storage::Many(map) => &mut map[place],
        }
    }
}

impl<V: Drop> Storage<V> {
    /// Puts an item under a name. A name that is there keeps its place, and a new one goes last.
    ///
    /// `NoMemory` if memory for it is refused; then the names are as they were.
    #[tactic(auto, using(crate::proofs::Changes::put_under, crate::proofs::Places::stands_nowhere))]
    pub(crate) fn insert(&mut self, name: Text, item: V) -> Result<(), NoMemory>
        requires differ { NamesDiffer (stored_pairs self.old) }
        ensures inserted { OnOk result (stored_pairs self.new ≡ with_name (stored_pairs self.old) name item) }
        ensures unchanged { OnErr result (stored_pairs self.new ≡ stored_pairs self.old) }
    {
        match self.place(&name) {
            Some(place) => {
                *self.item_mut(place) = item;
                Ok(())
            }
            None => self.push(name, item),
        }
    }

    // Puts a new name last.
    #[tactic(auto, using(crate::proofs::Changes::goes_last))]
    fn push(&mut self, name: Text, item: V) -> Result<(), NoMemory>
        requires new { under (stored_pairs self.old) name ≡ None }
        requires differ { NamesDiffer (stored_pairs self.old) }
        ensures pushed { OnOk result (stored_pairs self.new ≡ with_name (stored_pairs self.old) name item) }
        ensures unchanged { OnErr result (stored_pairs self.new ≡ stored_pairs self.old) }
    {
        self.make_fit()?;
        match self {
            Storage::Few(pairs) => pairs.push((name, item))?,
            Storage::Many(map) => {
                map.insert(name, item)?;
            }
        }
        Ok(())
    }

    // Goes over to a map if one more name is too many for a list.
    fn make_fit(&mut self) -> Result<(), NoMemory>
        requires differ { NamesDiffer (stored_pairs self.old) }
        ensures same { stored_pairs self.new ≡ stored_pairs self.old }
    {
        match self {
            Storage::Few(pairs) if pairs.len() >= FEW => self.hash(),
            _ => Ok(()),
        }
    }

    // Goes over to a map.
    fn hash(&mut self) -> Result<(), NoMemory>
        requires differ { NamesDiffer (stored_pairs self.old) }
        ensures same { stored_pairs self.new ≡ stored_pairs self.old }
    {
        let alloc = self.alloc();
        let map = IndexMap::with_capacity(alloc, self.len())?;
        match replace(self, Storage::Few(Vec::new(alloc))) {
            Storage::Few(pairs) => *self = Storage::Many(moved(map, pairs)),
            many => *self = many,
        }
        Ok(())
    }

    /// Takes out the name at a place that there is; those after it move up.
    pub(crate) fn remove_at(&mut self, place: usize)
        requires there { place < length (stored_pairs self.old) }
        ensures removed { stored_pairs self.new ≡ remove (stored_pairs self.old) place }
    {
        match self {
            Storage::Few(pairs) => drop(pairs.remove(place)),
            Storage::Many(map) => drop(map.shift_remove_index(place)),
        }
    }

    /// Takes out all names. The room of a list stays.
    pub(crate) fn clear(&mut self)
        ensures cleared { stored_pairs self.new ≡ [] }
    {
        match self {
            Storage::Few(pairs) => pairs.clear(),
            Storage::Many(_) => *self = Storage::Few(Vec::new(self.alloc())),
        }
    }
}

// Which of many names one is. It is a function of its own, so that the way of few names is short.
#[inline(never)]
fn hashed_place_of<V>(map: &IndexMap<Text, V>, name: &Text) -> Option<usize>
    ensures place { result ≡ place_of map.now.entries name.now }
    ensures within { IfSome result (λ place. place < length map.now.entries) }
{
    map.get_index_of(name)
}
