//! What is marked where.
ghost use Rattle.std.specs.Prelude.{◌≡◌, ◌<◌, ℕ, IfOk, IsTrue, ◌⊎◌, ◌↔◌};
ghost use Rattle.tt_waits.specs.inside.Marks.{IsMarked};

use crate::rows::Rows;
use crate::words::join_words;
use std::alloc::Global;
use tt_text::NoMemory;

impl Rows {
    /// No mark between `count` places.
    ///
    /// `NoMemory` if memory for the rows is refused.
    pub(crate) fn unmarked(alloc: Global, count: usize) -> Result<Self, NoMemory>
        ensures count { IfOk result (λ rows. rows.count ≡ count) }
        ensures none { IfOk result (λ rows. (i j : ℕ) → ¬ (IsMarked rows i j)) }
    {
        let width = count.div_ceil(64);
        let size = count.checked_mul(width).ok_or(NoMemory)?;
        let words = Vec::from_elem(alloc, 0, size)?;
        Ok(Rows {
            count,
            width,
            words,
        })
    }

    /// Whether place `from` is marked at place `to`.
    pub(crate) fn is_marked(&self, from: usize, to: usize) -> bool
        requires from { from < self.now.count }
        requires to { to < self.now.count }
        ensures { IsTrue result ↔ IsMarked self.now from to }
    {
        let word = self.words[from * self.width + to / 64];
        (word >> (to % 64)) & 1 == 1
    }

    /// Marks place `from` at place `to`.
    pub(crate) fn mark(&mut self, from: usize, to: usize)
        requires from { from < self.old.count }
        requires to { to < self.old.count }
        ensures count { self.new.count ≡ self.old.count }
        ensures marks { (i j : ℕ) → IsMarked self.new i j ↔ (IsMarked self.old i j ⊎ ((i ≡ from) × (j ≡ to))) }
    {
        self.words[from * self.width + to / 64] |= 1 << (to % 64);
    }

    /// Marks place `into` wherever place `other` is marked.
    pub(crate) fn join(&mut self, into: usize, other: usize)
        requires into { into < self.old.count }
        requires other { other < self.old.count }
        ensures count { self.new.count ≡ self.old.count }
        ensures marks { (i j : ℕ) →
            IsMarked self.new i j ↔ (IsMarked self.old i j ⊎ ((i ≡ into) × IsMarked self.old other j)) }
    {
        join_words(
            self.words.as_mut_slice(),
            into * self.width,
            other * self.width,
            self.width,
        );
    }
}
