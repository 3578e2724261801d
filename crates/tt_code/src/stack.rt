//! The values so far.
ghost use Rattle.std.specs.Prelude.{◌≡◌, ◌∷◌, ◌++◌, [], drop, reverse, take, IfSome, MatchOption, OnOk};
ghost use Rattle.std.specs.Fmt.{signed_decimal};

use std::alloc::Global;
use std::marker::Model;
use std::mem;
use tt_text::NoMemory;
use tt_value::{Value, Values};

/// The values so far. Contracts see them with the newest first.
#[derive(Debug, Drop)]
pub(crate) struct Stack {
    alloc: Global,
    values: Vec<Value>,
}

impl Model for Stack {
    ghost use Rattle.std.specs.Prelude.{ℕ, List, reverse};

    ghost Value = { List (List ℕ) };

    ghost view = { λ stack. reverse stack.values.items };
}

impl Stack {
    pub(crate) fn new(alloc: Global) -> Self
        ensures { result ≡ [] }
    {
        Stack {
            alloc,
            values: Vec::new(alloc),
        }
    }

    #[inline]
    pub(crate) fn push(&mut self, value: Value) -> Result<(), NoMemory>
        ensures { OnOk result (self.new ≡ value ∷ self.old) }
    {
        if self.values.len() < self.values.capacity() {
            self.values.push_reserved(value);
            return Ok(());
        }
        self.push_more(value)
    }

    #[inline(never)]
    fn push_more(&mut self, value: Value) -> Result<(), NoMemory>
        ensures { OnOk result (self.new ≡ value ∷ self.old) }
    {
        self.values.push(value)?;
        Ok(())
    }

    /// The number that the newest keeps, if it keeps one.
    pub(crate) fn newest_number(&self) -> Option<i64>
        ensures { IfSome result (λ number. self.now ≡ signed_decimal number ∷ drop 1 self.now) }
    {
        match self.newest(1) {
            [value] => value.number(),
            _ => None,
        }
    }

    /// Takes the newest.
    pub(crate) fn pop(&mut self) -> Option<Value>
        ensures { MatchOption result (self.old ≡ []) (λ value. self.old ≡ value ∷ self.new) }
    {
        self.values.pop()
    }

    /// Adds values, of which the last becomes the newest.
    pub(crate) fn push_all(&mut self, values: Values) -> Result<(), NoMemory>
        ensures { OnOk result (self.new ≡ reverse values ++ self.old) }
    {
        let mut values = values.into_vec();
        self.values.append(&mut values)?;
        Ok(())
    }

    #[tactic(auto, using(crate::proofs::Newest::newest, std::proofs::lemmas::List::take_rest))]
    /// So many of the newest, the newest last, or as many as there are.
    pub(crate) fn newest(&self, count: usize) -> &[Value]
        ensures { result.now ≡ reverse (take count self.now) }
    {
        &self.values[self.values.len().saturating_sub(count)..]
    }

    #[tactic(auto, using(crate::proofs::Newest::others))]
    /// Takes so many of the newest, or as many as there are.
    pub(crate) fn forget(&mut self, count: usize)
        ensures { self.new ≡ drop count self.old }
    {
        self.values
            .truncate(self.values.len().saturating_sub(count));
    }

    /// Takes all, and keeps the room for others.
    pub(crate) fn clear(&mut self)
        ensures { self.new ≡ [] }
    {
        self.values.clear();
    }

    /// Takes all, the newest last.
    pub(crate) fn take(&mut self) -> Vec<Value>
        ensures values { result.items ≡ reverse self.old }
        ensures rest { self.new ≡ [] }
    {
        mem::replace(&mut self.values, Vec::new(self.alloc))
    }
}
