ghost use Rattle.std.specs.Prelude.{◌≡◌, ◌∷◌, ◌++◌, [], IfOk, OnOk};

use crate::builder::one;
use crate::command::{Part, Word};
use std::alloc::Global;
use tt_text::{NoMemory, Text};

/// What becomes of what is read. A script in brackets is read to its end and nothing of it is kept.
#[derive(Clone, Copy, Debug, PartialEq, Eq)]
pub(crate) enum Mode {
    /// It is kept.
    Keep,
    /// It is skipped, and takes no memory.
    Skip,
}

impl Mode {
    /// A text of these bytes, or an empty one where they are skipped.
    #[inline(always)]
    pub(crate) fn text(self, alloc: Global, bytes: &[u8]) -> Result<Text, NoMemory>
        ensures { self ≡ Mode.Keep → IfOk result (λ text. text ≡ bytes.now) }
    {
        match self {
            Mode::Keep => Text::from_bytes(alloc, bytes),
            Mode::Skip => Ok(Text::new(alloc)),
        }
    }

    /// A part alone, or none if it is skipped.
    #[inline(always)]
    pub(crate) fn one_part(self, alloc: Global, part: Part) -> Result<Vec<Part>, NoMemory>
        ensures { self ≡ Mode.Keep → IfOk result (λ parts. parts.items ≡ part ∷ []) }
    {
        match self {
            Mode::Keep => one(alloc, part),
            Mode::Skip => Ok(Vec::new(alloc)),
        }
    }

    /// Words in the making. Few commands have more than four.
    #[inline(always)]
    pub(crate) fn words(self, alloc: Global) -> Result<Vec<Word>, NoMemory>
        ensures { IfOk result (λ words. words.items ≡ []) }
    {
        match self {
            Mode::Keep => Ok(Vec::with_capacity(alloc, 4)?),
            Mode::Skip => Ok(Vec::new(alloc)),
        }
    }

    /// Adds a word to the words so far.
    #[inline(always)]
    pub(crate) fn push_word(self, words: &mut Vec<Word>, word: Word) -> Result<(), NoMemory>
        ensures { self ≡ Mode.Keep → OnOk result (words.new.items ≡ words.old.items ++ word ∷ []) }
    {
        match self {
            Mode::Keep => words.push(word)?,
            Mode::Skip => (),
        }
        Ok(())
    }
}
