ghost use Rattle.std.specs.Prelude.{◌≡◌, ◌++◌, ◌∷◌, ◌≤◌, ◌==◌, ◌↔◌, ℕ, [], length, not, IfOk, OnErr, OnOk};
ghost use Rattle.std.specs.List.{Contains, prefix_len};
ghost use Rattle.std.specs.List.Sorted.{IsStrictlyIncreasing};
ghost use Rattle.tt_locks.specs.Lock.{has_none, is_among, without_one};

use std::alloc::Global;
use std::marker::Model;
use tt_text::NoMemory;

/// Numbers of threads. Contracts see the list.
#[derive(Debug, Drop)]
pub struct Holders {
    threads: Vec<u32>,
}

impl Model for Holders {
    ghost use Rattle.std.specs.Prelude.{ℕ, List};

    ghost Value = { List ℕ };

    ghost view = { λ holders. holders.threads.items };
}

impl Holders {
    /// No threads. It takes no memory.
    pub(crate) fn new(alloc: Global) -> Self
        ensures { result ≡ [] }
    {
        Holders {
            threads: Vec::new(alloc),
        }
    }

    pub(crate) fn has_none(&self) -> bool
        ensures { result ≡ has_none self.now }
    {
        self.threads.is_empty()
    }

    pub(crate) fn contains(&self, thread: u32) -> bool
        ensures { result ≡ is_among self.now thread }
    {
        self.threads.iter().any(|holder| *holder == thread)
    }

    // The thread once more, at the end.
    pub(crate) fn push(&mut self, thread: u32) -> Result<(), NoMemory>
        ensures pushed { OnOk result (self.new ≡ self.old ++ thread ∷ []) }
        ensures unchanged { OnErr result (self.new ≡ self.old) }
    {
        self.threads.push(thread)?;
        Ok(())
    }

    // The thread once less: the first of it goes.
    pub(crate) fn remove_one(&mut self, thread: u32)
        ensures { self.new ≡ without_one self.old thread }
    {
        let place = self.place(thread);
        if place < self.threads.len() {
            self.threads.remove(place);
        }
    }

    // Where the first of a thread stands; the length if there is none.
    fn place(&self, thread: u32) -> usize
        ensures place { result ≡ prefix_len (λ holder. not (holder == thread)) self.now }
        ensures within { result ≤ length self.now }
    {
        self.threads
            .iter()
            .take_while(|holder| **holder != thread)
            .count()
    }

    // Each of the threads once, by number.
    pub(crate) fn different(&self) -> Result<Vec<u32>, NoMemory>
        ensures by_number { IfOk result (λ threads. IsStrictlyIncreasing threads.items) }
        ensures exactly { IfOk result (λ threads. (u : ℕ) → Contains threads.items u ↔ Contains self.now u) }
    {
        let mut threads = self.threads.clone()?;
        threads.sort_unstable();
        threads.dedup();
        Ok(threads)
    }

    pub(crate) fn clear(&mut self)
        ensures { self.new ≡ [] }
    {
        self.threads.clear();
    }
}
