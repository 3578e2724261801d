ghost use Rattle.std.specs.Prelude.{◌≡◌, ◌+◌, ◌≤◌, ◌++◌, ◌∷◌, [], length, take, vec_len, vec_capacity, IfOk, OnOk, OnErr};

use crate::{NoMemory, Text};
use std::alloc::Global;
use std::marker::Model;

/// A list of texts. Contracts see the list.
#[derive(Debug, Drop)]
pub struct Texts {
    items: Vec<Text>,
}

impl Model for Texts {
    ghost use Rattle.std.specs.Prelude.{ℕ, List};

    ghost Value = { List (List ℕ) };

    ghost view = { λ texts. texts.items.items };
}

impl Texts {
    /// No texts. It takes no memory.
    pub fn new(alloc: Global) -> Self
        ensures empty { result ≡ [] }
    {
        Texts {
            items: Vec::new(alloc),
        }
    }

    /// No texts, with room for so many.
    ///
    /// `NoMemory` if memory for them is refused.
    pub fn with_capacity(alloc: Global, capacity: usize) -> Result<Self, NoMemory>
        ensures empty { IfOk result (λ texts. texts ≡ []) }
    {
        Ok(Texts {
            items: Vec::with_capacity(alloc, capacity)?,
        })
    }

    /// Copies of these texts.
    ///
    /// `NoMemory` if memory for the list is refused.
    pub fn from_copies(alloc: Global, texts: &[Text]) -> Result<Self, NoMemory>
        ensures copies { IfOk result (λ copies. copies ≡ texts.now) }
    {
        let mut items = Vec::with_capacity(alloc, texts.len())?;
        push_each(&mut items, texts)?;
        Ok(Texts { items })
    }

    /// The texts, from the first to the last.
    pub fn as_slice(&self) -> &[Text]
        ensures items { result.now ≡ self.now }
    {
        self.items.as_slice()
    }

    /// Adds a text at the end.
    ///
    /// `NoMemory` if memory for it is refused; then the list is as it was.
    pub fn push(&mut self, text: Text) -> Result<(), NoMemory>
        ensures pushed { OnOk result (self.new ≡ self.old ++ text ∷ []) }
        ensures unchanged { OnErr result (self.new ≡ self.old) }
    {
        self.items.push(text)?;
        Ok(())
    }

    /// Adds copies of these texts at the end.
    ///
    /// `NoMemory` if memory for them is refused, or if there are too many copies of one; then the list is as it was.
    pub fn push_copies(&mut self, texts: &[Text]) -> Result<(), NoMemory>
        ensures pushed { OnOk result (self.new ≡ self.old ++ texts.now) }
        ensures unchanged { OnErr result (self.new ≡ self.old) }
    {
        let len = self.items.len();
        self.items.reserve(texts.len())?;
        let pushed = push_each(&mut self.items, texts);
        if pushed.is_err() {
            self.items.truncate(len);
        }
        pushed
    }

    /// The texts as a vector. None is copied.
    pub fn into_vec(self) -> Vec<Text>
        ensures items { result.items ≡ self }
    {
        let Texts { items } = self;
        items
    }
}

impl From<Vec<Text>> for Texts {
    ghost from_gives = { λ items texts. texts ≡ items.items };

    fn from(items: Vec<Text>) -> Self {
        Texts { items }
    }
}

// Copies of these texts go to the end of a list that has room for them; if memory is refused, some of them may be there.
fn push_each(items: &mut Vec<Text>, texts: &[Text]) -> Result<(), NoMemory>
    requires room { vec_len items.old + length texts.now ≤ vec_capacity items.old }
    ensures pushed { OnOk result (items.new.items ≡ items.old.items ++ texts.now) }
    ensures front { take (length items.old.items) items.new.items ≡ items.old.items }
{
    for text in texts {
        text.push_copy(items)?;
    }
    Ok(())
}
