ghost use Rattle.std.specs.Prelude.{◌≡◌, IfOk, OnOk, Some, bytes_eq};
ghost use Rattle.std.specs.Map.{lookup};
ghost use Rattle.std.specs.Option.{option_map};
ghost use Rattle.tt_tsv.specs.Calls.{is_held_by_other};
ghost use Rattle.tt_tsv.specs.Arrays.{array_with_items, array_without_elements, array_with_hold, is_held, is_held_by};
ghost use Rattle.tt_tsv.specs.Arrays.{array_without_hold, new_array, with_element};
ghost use Rattle.tt_tsv.specs.Arrays.{with_elements, without_element};
ghost use Rattle.tt_tsv.specs.Elements.{change_of};
ghost use Rattle.tt_tsv.specs.inside.Changed.{elements_left};

use crate::Elements;
use crate::change::Change;
use crate::usage::ElementUsage;
use std::alloc::Global;
use tt_ids::number_after;
use tt_text::{NoMemory, Text};
use tt_value::Value;

/// A shared array.
#[derive(Debug, Drop)]
pub struct Array {
    pub elements: Elements,
    /// The thread that holds it (tsv(n), tsv::lock).
    pub holder: Option<u32>,
    /// How many times it does.
    pub depth: u64,
}

impl Array {
    pub(crate) fn new(alloc: Global) -> Self
        ensures { result ≡ new_array }
    {
        Array {
            elements: Elements::new(alloc),
            holder: None,
            depth: 0,
        }
    }

    pub(crate) fn is_held(&self) -> bool
        ensures { result ≡ is_held self.now }
    {
        self.holder.is_some()
    }

    pub(crate) fn is_held_by(&self, thread: u32) -> bool
        ensures { result ≡ is_held_by thread self.now }
    {
        match self.holder {
            Some(holder) => holder == thread,
            None => false,
        }
    }

    pub(crate) fn is_held_by_other(&self, thread: u32) -> bool
        ensures { result ≡ is_held_by_other thread (Some self.now) }
    {
        self.is_held() && !self.is_held_by(thread)
    }

    // One hold more.
    pub(crate) fn hold(&mut self, thread: u32) -> Result<(), NoMemory>
        ensures { OnOk result (self.new ≡ array_with_hold thread self.old) }
    {
        self.depth = number_after(self.depth)?;
        self.holder = Some(thread);
        Ok(())
    }

    // One hold less.
    pub(crate) fn let_go(&mut self)
        ensures { self.new ≡ array_without_hold self.old }
    {
        if self.depth <= 1 {
            self.holder = None;
            self.depth = 0;
        } else {
            self.depth -= 1;
        }
    }

    pub(crate) fn put(&mut self, key: &Text, value: Value) -> Result<(), NoMemory>
        ensures { OnOk result (self.new ≡ with_element key.now value self.old) }
    {
        self.elements.put(key.copy()?, value)
    }

    /// Changes an element where it stands; `None` if there is no such element.
    pub(crate) fn change(
        &mut self,
        key: &Text,
        usage: ElementUsage,
        words: &[Text],
    ) -> Result<Option<Change>, NoMemory>
        ensures change { IfOk result (λ change. change ≡ option_map (λ value. change_of usage value words.now)
            (lookup (bytes_eq key.now) self.old.elements)) }
        ensures left { IfOk result (λ change.
            self.new ≡ with_elements self.old (elements_left key.now change self.old.elements)) }
    {
        self.elements.change(key, usage, words)
    }

    pub(crate) fn remove(&mut self, key: &Text)
        ensures { self.new ≡ without_element key.now self.old }
    {
        self.elements.remove(key);
    }

    pub(crate) fn fill(&mut self, items: &[Text]) -> Result<(), NoMemory>
        ensures { OnOk result (self.new ≡ array_with_items items.now self.old) }
    {
        self.elements.fill(items)
    }

    // No elements any more.
    pub(crate) fn clear(&mut self, alloc: Global)
        ensures { self.new ≡ array_without_elements self.old }
    {
        self.elements = Elements::new(alloc);
    }
}
