ghost use Rattle.std.specs.Prelude.{◌≡◌, ◌<◌, ◌++◌, ◌∷◌, [], Some, IsSome, OnErr, OnOk, length};
ghost use Rattle.std.specs.Borrow.{sem};
ghost use Rattle.std.specs.Option.{option_copied, option_copied_mut};
ghost use Rattle.tt_calls.specs.Numbers.{at_number};

use std::alloc::Global;
use std::marker::Model;
use tt_text::NoMemory;

/// A list of places, one for each thread by its number from 1. Contracts see the list. There are 4,294,967,295 at most.
#[derive(Debug, Drop)]
pub struct Places<T> {
    items: Vec<T>,
}

impl<T> Model for Places<T> {
    ghost use Rattle.std.specs.Prelude.{◌≤◌, List, length};

    ghost Value = { List T };

    ghost view = { λ places. places.items.items };

    ghost invariant = { λ places. length places.items.items ≤ 4294967295 };
}

impl<T> Places<T> {
    ghost use Rattle.tt_places.specs.Lending.{lends_number, lends_place};

    /// No places. It takes no memory.
    pub fn new(alloc: Global) -> Self
        ensures empty { result ≡ [] }
    {
        Places {
            items: Vec::new(alloc),
        }
    }

    /// How many there are, which is the number of the last.
    pub fn len(&self) -> u32
        ensures count { result ≡ length self.now }
    {
        self.items.as_slice().len() as u32
    }

    /// What stands under a number, or `None` exactly if there is no such place. It takes no memory.
    pub fn get(&self, number: u32) -> Option<&T>
        ensures found { option_copied result ≡ at_number self.now number }
    {
        if number == 0 {
            return None;
        }
        self.items.get(number as usize - 1)
    }

    /// What stands under a number, to be changed, or `None` exactly if there is no such place. It takes no memory.
    pub fn get_mut(&mut self, number: u32) -> Option<&mut T>
        ensures* lent { sem 𝓛 (lends_number T.row self.entry number result) }
        ensures found { option_copied_mut result ≡ at_number self.old number }
    {
        if self.get(number).is_some() {
            Some(self.place_mut(number))
        } else {
            None
        }
    }

    /// What stands under a number that has a place, to be changed. It takes no memory.
    pub fn place_mut(&mut self, number: u32) -> &mut T
        requires there { IsSome (at_number self.old number) }
        ensures* lent { sem 𝓛 (lends_place T.row self.entry number result) }
        ensures found { at_number self.old number ≡ Some result.now }
    {
        &mut self.items[number as usize - 1]
    }
}

impl<T: Drop> Places<T> {
    /// Adds the place of the next number.
    ///
    /// `NoMemory` if memory for it is refused; then there are the same places.
    pub fn push(&mut self, item: T) -> Result<(), NoMemory>
        requires room { length self.old < u32.MAX }
        ensures pushed { OnOk result (self.new ≡ self.old ++ item ∷ []) }
        ensures unchanged { OnErr result (self.new ≡ self.old) }
    {
        self.items.push(item)?;
        Ok(())
    }
}
