//! Parts in the making.
ghost use Rattle.std.specs.Prelude.{◌≡◌, ◌∷◌, ◌++◌, [], IfOk, OnOk};
ghost use Rattle.tt_script.specs.Words.{PlainParts, none, with_letters, with_part};
ghost use Rattle.tt_script.specs.Plain.{plain_part, plain_parts};
ghost use Rattle.tt_script.specs.Reading.{letters_of};

use crate::command::Part;
use crate::mode::Mode;
use std::alloc::Global;
use std::mem;
use tt_text::{NoMemory, Text};

/// The parts that are whole, and the letters after them. Where they are skipped it has none.
#[derive(Drop)]
pub(crate) struct Builder {
    pub(crate) mode: Mode,
    pub(crate) done: Vec<Part>,
    pub(crate) letters: Text,
}

impl Builder {
    ghost use Rattle.tt_script.specs.inside.Building.{so_far, apart, before};

    pub(crate) fn new(alloc: Global, mode: Mode) -> Self
        ensures parts { (rest : PlainParts) → so_far result rest ≡ rest }
        ensures mode { result.mode ≡ mode }
    {
        Builder {
            mode,
            done: Vec::new(alloc),
            letters: Text::new(alloc),
        }
    }

    /// Adds bytes that stand for themselves.
    #[inline(always)]
    pub(crate) fn push_letters(&mut self, bytes: &[u8]) -> Result<(), NoMemory>
        ensures added { self.old.mode ≡ Mode.Keep
            → OnOk result ((rest : PlainParts)
            → so_far self.new rest ≡ so_far self.old (with_letters bytes.now rest)) }
        ensures mode { self.new.mode ≡ self.old.mode }
    {
        match self.mode {
            Mode::Keep => self.letters.push_bytes(bytes)?,
            Mode::Skip => (),
        }
        Ok(())
    }

    /// Adds a part.
    #[inline(always)]
    pub(crate) fn push(&mut self, alloc: Global, part: Part) -> Result<(), NoMemory>
        ensures added { self.old.mode ≡ Mode.Keep
            → OnOk result ((rest : PlainParts)
            → so_far self.new rest ≡ so_far self.old (with_part (plain_part part) rest)) }
        ensures mode { self.new.mode ≡ self.old.mode }
    {
        match self.mode {
            Mode::Keep => self.push_kept(alloc, part)?,
            Mode::Skip => (),
        }
        Ok(())
    }

    /// Adds a part that is kept.
    #[inline(always)]
    fn push_kept(&mut self, alloc: Global, part: Part) -> Result<(), NoMemory>
        ensures added { OnOk result ((rest : PlainParts)
            → so_far self.new rest ≡ so_far self.old (with_part (plain_part part) rest)) }
        ensures mode { self.new.mode ≡ self.old.mode }
    {
        if let Part::Letters(letters) = part {
            self.letters.push_bytes(letters.as_bytes())?;
            return Ok(());
        }
        self.close_letters(alloc)?;
        self.push_whole(part)?;
        Ok(())
    }

    /// Makes the letters a part of their own, before others.
    #[inline(always)]
    fn close_letters(&mut self, alloc: Global) -> Result<(), NoMemory>
        ensures letters { OnOk result (self.new.letters ≡ []) }
        ensures parts { OnOk result ((rest : PlainParts)
            → before self.new.done.items rest ≡ before self.old.done.items (apart self.old.letters rest)) }
        ensures mode { self.new.mode ≡ self.old.mode }
    {
        if !self.letters.as_bytes().is_empty() {
            let letters = mem::replace(&mut self.letters, Text::new(alloc));
            self.done.push(Part::Letters(letters))?;
        }
        Ok(())
    }

    #[inline(always)]
    /// Adds a part after those that are whole. Most words have one part, so the first takes room for one.
    fn push_whole(&mut self, part: Part) -> Result<(), NoMemory>
        ensures done { OnOk result (self.new.done.items ≡ self.old.done.items ++ part ∷ []) }
        ensures letters { self.new.letters ≡ self.old.letters }
        ensures mode { self.new.mode ≡ self.old.mode }
    {
        if self.done.is_empty() {
            self.done.reserve_exact(1)?;
        }
        self.done.push(part)?;
        Ok(())
    }

    /// Makes the last letters a part of their own, so that all parts are whole.
    #[inline(always)]
    pub(crate) fn finish(&mut self, alloc: Global) -> Result<(), NoMemory>
        ensures { OnOk result (plain_parts self.new.done.items ≡ so_far self.old none) }
    {
        self.close_letters(alloc)?;
        Ok(())
    }
}

/// The parts of a text that is all letters.
#[inline(always)]
pub(crate) fn letters(alloc: Global, text: Text) -> Result<Vec<Part>, NoMemory>
    ensures { IfOk result (λ parts. plain_parts parts.items ≡ letters_of text) }
{
    if text.as_bytes().is_empty() {
        return Ok(Vec::new(alloc));
    }
    let parts = one(alloc, Part::Letters(text))?;
    Ok(parts)
}

/// A part alone, in room for one.
#[inline(always)]
pub(crate) fn one(alloc: Global, part: Part) -> Result<Vec<Part>, NoMemory>
    ensures { IfOk result (λ parts. parts.items ≡ part ∷ []) }
{
    let mut parts = Vec::with_capacity(alloc, 1)?;
    parts.push(part)?;
    Ok(parts)
}
