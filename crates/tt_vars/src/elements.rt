ghost use Rattle.std.specs.Prelude.{◌≡◌, ◌++◌, ◌∷◌, [], ℕ, List, None, length, slice_set, bytes_eq, IfOk, OnOk};
ghost use Rattle.std.specs.Prelude.{OnErr};
ghost use Rattle.std.specs.Option.{option_map, option_copied, ok_or};
ghost use Rattle.std.specs.Map.{lookup, keys_of, remove_entry};
ghost use Rattle.indexmap.specs.IndexMap.{insert_entry};
ghost use Rattle.tt_vars.specs.declared.answers.VarFault.TheVariants.{NoSuchElement};
ghost use Rattle.tt_vars.specs.Variables.{result_of};
ghost use Rattle.tt_vars.specs.inside.Found.{after_change};
ghost use Rattle.tt_vars.specs.inside.Slots.{Differ, Slot, elements_in, index_in, put_at, put_in, slot_at, text_in};
ghost use Rattle.tt_vars.specs.inside.Slots.{with_slot};

use crate::VarFault;
use crate::reading::Reading;
use std::alloc::Global;
use std::collections::HashMap;
use std::marker::Model;
use tt_text::{NoMemory, Text, Texts};
use tt_value::{Changing, Made, Value};

/// The elements of an array (array(n)), in the order of their first insertion. Contracts see the list of pairs of
/// an index and a value's text.
///
/// An element that is removed leaves a gap. Gaps are closed once they are more than half of the slots, so that each
/// change takes constant time on average.
#[derive(Debug, Drop)]
pub(crate) struct Elements {
    /// Which slot an index has.
    places: HashMap<Text, usize>,
    slots: Vec<Option<(Text, Value)>>,
}

impl Model for Elements {
    ghost use Rattle.std.specs.Prelude.{◌≡◌, ℕ, List, bytes_eq, length};
    ghost use Rattle.std.specs.HashMap.{get, hash_map_len};
    ghost use Rattle.tt_vars.specs.inside.Slots.{ArePlaces, elements_in};

    ghost Value = { List (List ℕ × List ℕ) };

    ghost view = { λ elements. elements_in elements.slots.items };

    ghost invariant = { λ elements.
        ArePlaces (get bytes_eq elements.places) elements.slots.items
        × (hash_map_len elements.places ≡ length (elements_in elements.slots.items)) };
}

impl Elements {
    /// One element.
    ///
    /// `NoMemory` if memory for it is refused.
    pub(crate) fn one(alloc: Global, index: Text, value: Value) -> Result<Self, NoMemory>
        ensures one { IfOk result (λ elements. elements ≡ (index, value) ∷ []) }
    {
        let mut elements = Elements::new(alloc);
        elements.put(index, value)?;
        Ok(elements)
    }

    fn new(alloc: Global) -> Self
        ensures none { result ≡ [] }
    {
        Elements {
            places: HashMap::new(alloc),
            slots: Vec::new(alloc),
        }
    }

    /// The value at an index; None if there is none.
    pub(crate) fn get(&self, index: &Text) -> Option<&Value>
        ensures found { option_copied result ≡ lookup (bytes_eq index.now) self.now }
    {
        match self.places.get(index) {
            Some(place) => value_at(&self.slots, *place),
            None => None,
        }
    }

    /// Whether there is an element with this index.
    pub(crate) fn has(&self, index: &Text) -> Result<(), VarFault>
        ensures has { result ≡ result_of (λ text. tt) (ok_or (lookup (bytes_eq index.now) self.now) NoSuchElement) }
    {
        match self.get(index) {
            Some(_) => Ok(()),
            None => Err(VarFault::NoSuchElement),
        }
    }

    /// Gives an index this value. An index that is there keeps its place, and a new one goes last.
    ///
    /// `NoMemory` if memory for it is refused; then the elements are as they were.
    pub(crate) fn put(&mut self, index: Text, value: Value) -> Result<(), NoMemory>
        ensures put { OnOk result (self.new ≡ insert_entry bytes_eq self.old index value) }
        ensures unchanged { OnErr result (self.new ≡ self.old) }
    {
        match self.places.get(&index) {
            Some(place) => {
                put_at(&mut self.slots, *place, value);
                Ok(())
            }
            None => self.push(index, value),
        }
    }

    // Puts a new index last.
    fn push(&mut self, index: Text, value: Value) -> Result<(), NoMemory>
        requires new { lookup (bytes_eq index) self.old ≡ None }
        ensures put { OnOk result (self.new ≡ insert_entry bytes_eq self.old index value) }
        ensures unchanged { OnErr result (self.new ≡ self.old) }
    {
        let name = index.copy()?;
        self.slots.reserve(1)?;
        self.places.insert(name, self.slots.len())?;
        self.slots.push_reserved(Some((index, value)));
        Ok(())
    }

    /// Takes out the element with an index.
    pub(crate) fn remove(&mut self, index: &Text)
        ensures removed { self.new ≡ remove_entry (bytes_eq index.now) self.old }
    {
        self.leave_gap(index);
        if self.slots.len() / 2 > self.places.len() {
            // If memory is refused, the gaps stay.
            let _ = self.close_gaps();
        }
    }

    fn leave_gap(&mut self, index: &Text)
        ensures removed { self.new ≡ remove_entry (bytes_eq index.now) self.old }
    {
        match self.places.remove(index) {
            Some(place) => clear_at(&mut self.slots, place),
            None => {}
        }
    }

    fn close_gaps(&mut self) -> Result<(), NoMemory>
        ensures same { self.new ≡ self.old }
    {
        *self = copied(*self.slots.allocator(), self.slots.as_slice())?;
        Ok(())
    }

    /// How many there are.
    pub(crate) fn len(&self) -> usize
        ensures len { result ≡ length self.now }
    {
        self.places.len()
    }

    /// What the value at an index is read as; None if there is none.
    ///
    /// `NoMemory` if memory is refused.
    pub(crate) fn read_as<R: Reading>(
        &mut self,
        index: &Text,
        reading: &R,
    ) -> Result<Option<R::Answer>, NoMemory>
        ensures answer { IfOk result (λ answer.
            answer ≡ option_map (R.meaning reading.now) (lookup (bytes_eq index.now) self.old)) }
        ensures same { self.new ≡ self.old }
    {
        let alloc = *self.slots.allocator();
        match self.places.get(index) {
            Some(place) => read_at(alloc, &mut self.slots, *place, reading),
            None => Ok(None),
        }
    }

    /// Changes the value at an index; None if there is none.
    ///
    /// `NoMemory` if memory is refused; then nothing is said of the value.
    pub(crate) fn change<C: Changing>(
        &mut self,
        index: &Text,
        changing: &C,
    ) -> Result<Option<Made>, NoMemory>
        ensures answer { IfOk result (λ answer.
            answer ≡ option_map (C.meaning changing.now) (lookup (bytes_eq index.now) self.old)) }
        ensures changed { IfOk result (λ answer.
            self.new ≡ after_change (insert_entry bytes_eq self.old index.now) self.old answer) }
    {
        let alloc = *self.slots.allocator();
        match self.places.get(index) {
            Some(place) => change_at(alloc, &mut self.slots, *place, changing),
            None => Ok(None),
        }
    }

    /// The indices, in order.
    ///
    /// `NoMemory` if memory for them is refused.
    pub(crate) fn names(&self) -> Result<Texts, NoMemory>
        ensures names { IfOk result (λ names. names ≡ keys_of self.now) }
    {
        indices_of(*self.slots.allocator(), self.slots.as_slice())
    }
}

// The value of the element in a slot.
fn value_at(slots: &Vec<Option<(Text, Value)>>, place: usize) -> Option<&Value>
    ensures { option_copied result ≡ text_in (slot_at slots.now.items place) }
{
    match slots.get(place) {
        Some(Some((_, value))) => Some(value),
        _ => None,
    }
}

// What it is read as.
fn read_at<R: Reading>(
    alloc: Global,
    slots: &mut Vec<Option<(Text, Value)>>,
    place: usize,
    reading: &R,
) -> Result<Option<R::Answer>, NoMemory>
    ensures answer { IfOk result (λ answer.
        answer ≡ option_map (R.meaning reading.now) (text_in (slot_at slots.old.items place))) }
    ensures same { slots.new.items ≡ slots.old.items }
{
    match slots.get_mut(place) {
        Some(slot) => read_in(alloc, slot, reading),
        None => Ok(None),
    }
}

fn read_in<R: Reading>(
    alloc: Global,
    slot: &mut Option<(Text, Value)>,
    reading: &R,
) -> Result<Option<R::Answer>, NoMemory>
    ensures answer { IfOk result (λ answer. answer ≡ option_map (R.meaning reading.now) (text_in slot.old)) }
    ensures same { slot.new ≡ slot.old }
{
    match slot {
        Some((_, value)) => {
            let answer = reading.read(alloc, value)?;
            Ok(Some(answer))
        }
        None => Ok(None),
    }
}

// Changes it. Whatever becomes of it, its index stays where it was.
fn change_at<C: Changing>(
    alloc: Global,
    slots: &mut Vec<Option<(Text, Value)>>,
    place: usize,
    changing: &C,
) -> Result<Option<Made>, NoMemory>
    ensures answer { IfOk result (λ answer.
        answer ≡ option_map (C.meaning changing.now) (text_in (slot_at slots.old.items place))) }
    ensures changed { IfOk result (λ answer. slots.new.items
        ≡ slice_set slots.old.items place (after_change (put_in (slot_at slots.old.items place))
        (slot_at slots.old.items place) answer)) }
    ensures there { (slot : Slot) ×
        (slots.new.items ≡ slice_set slots.old.items place slot)
        × (index_in slot ≡ index_in (slot_at slots.old.items place)) }
{
    match slots.get_mut(place) {
        Some(slot) => change_in(alloc, slot, changing),
        None => Ok(None),
    }
}

fn change_in<C: Changing>(
    alloc: Global,
    slot: &mut Option<(Text, Value)>,
    changing: &C,
) -> Result<Option<Made>, NoMemory>
    ensures answer { IfOk result (λ answer. answer ≡ option_map (C.meaning changing.now) (text_in slot.old)) }
    ensures changed { IfOk result (λ answer. slot.new ≡ after_change (put_in slot.old) slot.old answer) }
    ensures index { index_in slot.new ≡ index_in slot.old }
{
    match slot {
        Some((_, value)) => {
            let made = changing.change(alloc, value)?;
            Ok(Some(made))
        }
        None => Ok(None),
    }
}

// Gives the element in a slot this value.
fn put_at(slots: &mut Vec<Option<(Text, Value)>>, place: usize, value: Value)
    ensures put { slots.new.items ≡ put_at slots.old.items place value }
{
    if let Some(slot) = slots.get_mut(place) {
        put_in(slot, value);
    }
}

fn put_in(slot: &mut Option<(Text, Value)>, value: Value)
    ensures put { slot.new ≡ put_in slot.old value }
{
    if let Some((_, old)) = slot {
        *old = value;
    }
}

// Leaves a gap in a slot.
fn clear_at(slots: &mut Vec<Option<(Text, Value)>>, place: usize)
    ensures gap { slots.new.items ≡ slice_set slots.old.items place None }
{
    if let Some(slot) = slots.get_mut(place) {
        *slot = None;
    }
}

// The indices of the elements in slots.
fn indices_of(alloc: Global, slots: &[Option<(Text, Value)>]) -> Result<Texts, NoMemory>
    ensures { IfOk result (λ indices. indices ≡ keys_of (elements_in slots.now)) }
{
    let mut indices = Texts::new(alloc);
    for slot in slots {
        push_index(&mut indices, slot)?;
    }
    Ok(indices)
}

fn push_index(indices: &mut Texts, slot: &Option<(Text, Value)>) -> Result<(), NoMemory>
    ensures { OnOk result (indices.new ≡ indices.old ++ keys_of (elements_in (slot.now ∷ []))) }
{
    if let Some((index, _)) = slot {
        indices.push(index.copy()?)?;
    }
    Ok(())
}

// The elements in slots, without gaps.
fn copied(alloc: Global, slots: &[Option<(Text, Value)>]) -> Result<Elements, NoMemory>
    requires { Differ slots.now }
    ensures { IfOk result (λ elements. elements ≡ elements_in slots.now) }
{
    let mut elements = Elements::new(alloc);
    for slot in slots {
        put_copy(&mut elements, slot)?;
    }
    Ok(elements)
}

fn put_copy(elements: &mut Elements, slot: &Option<(Text, Value)>) -> Result<(), NoMemory>
    ensures { OnOk result (elements.new ≡ with_slot slot.now elements.old) }
{
    if let Some((index, value)) = slot {
        elements.put(index.copy()?, value.copy()?)?;
    }
    Ok(())
}
