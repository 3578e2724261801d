//! Commands that change a variable's value where it stands (append(n), lappend(n), incr(n)).
ghost use Rattle.std.specs.Prelude.{◌≡◌, ◌∷◌, [], IfOk, codes};
ghost use Rattle.tt_script.specs.Names as names;
ghost use Rattle.tt_store.specs.Listed as listed;
ghost use Rattle.tt_store.specs.Scalars as scalars;
ghost use Rattle.tt_store.specs.Spots.{spot_of};
ghost use Rattle.tt_value.specs.Growing.{text_with_texts, list_with_texts as listed_at_end};

use crate::Store;
use crate::appending::{AppendingOne, LengtheningByOne};
use crate::increment::Increment;
use crate::messages::cannot_read;
use crate::often::is_special;
use crate::spot::{Spot, spot_of};
use tt_calls::Outcome;
use tt_text::{NoMemory, Text};
use tt_value::{Appending, Changing, Lengthening, Value, texts_of};
use tt_vars::VarFault;

impl Store {
    #[inline(never)]
    pub(crate) fn append(&mut self, usage: &[u8], words: &[Value]) -> Result<Outcome, NoMemory>
        ensures { IfOk result (λ outcome. scalars.append usage.now words.now self.old outcome self.new) }
    {
        match words {
            [] => self.refuse(usage),
            [word] => {
                let word = word.to_text(self.alloc)?;
                self.read_word(&word)
            }
            [word, value] => self.append_one_to(word, value),
            [word, values @ ..] => self.append_to(word, values),
        }
    }

    fn append_one_to(&mut self, word: &Value, value: &Value) -> Result<Outcome, NoMemory>
        ensures { IfOk result (λ outcome.
            scalars.Changes word.now [] (text_with_texts (value.now ∷ [])) self.old outcome self.new) }
    {
        let word = word.to_text(self.alloc)?;
        let texts = [value.to_text(self.alloc)?];
        self.change(&word, b"", &AppendingOne { texts })
    }

    #[inline(never)]
    fn append_to(&mut self, word: &Value, values: &[Value]) -> Result<Outcome, NoMemory>
        ensures { IfOk result (λ outcome.
            scalars.Changes word.now [] (text_with_texts values.now) self.old outcome self.new) }
    {
        let word = word.to_text(self.alloc)?;
        let texts = texts_of(self.alloc, values)?;
        self.change(&word, b"", &Appending { texts })
    }

    #[inline(never)]
    pub(crate) fn lappend(&mut self, usage: &[u8], words: &[Value]) -> Result<Outcome, NoMemory>
        ensures { IfOk result (λ outcome. listed.lappend usage.now words.now self.old outcome self.new) }
    {
        match words {
            [] => self.refuse(usage),
            [word, value] => self.append_item_to(word, value),
            [word, values @ ..] => self.append_items_to(word, values),
        }
    }

    fn append_item_to(&mut self, word: &Value, value: &Value) -> Result<Outcome, NoMemory>
        ensures { IfOk result (λ outcome.
            scalars.Changes word.now [] (listed_at_end (value.now ∷ [])) self.old outcome self.new) }
    {
        let word = word.to_text(self.alloc)?;
        let items = [value.to_text(self.alloc)?];
        self.change(&word, b"", &LengtheningByOne { items })
    }

    #[inline(never)]
    fn append_items_to(&mut self, word: &Value, values: &[Value]) -> Result<Outcome, NoMemory>
        ensures { IfOk result (λ outcome.
            scalars.Changes word.now [] (listed_at_end values.now) self.old outcome self.new) }
    {
        let word = word.to_text(self.alloc)?;
        let items = texts_of(self.alloc, values)?;
        self.change(&word, b"", &Lengthening { items })
    }

    #[inline(never)]
    pub(crate) fn incr(&mut self, usage: &[u8], words: &[Value]) -> Result<Outcome, NoMemory>
        ensures { IfOk result (λ outcome. scalars.incr usage.now words.now self.old outcome self.new) }
    {
        match words {
            [word] => {
                let step = Text::from_bytes(self.alloc, b"1")?;
                self.increment(word, step)
            }
            [word, step] => self.increment(word, step.to_text(self.alloc)?),
            _ => self.refuse(usage),
        }
    }

    fn increment(&mut self, word: &Value, step: Text) -> Result<Outcome, NoMemory>
        ensures { IfOk result (λ outcome.
            scalars.Changes word.now (codes "0") (scalars.increment_of step) self.old outcome self.new) }
    {
        let word = word.to_text(self.alloc)?;
        self.change(&word, b"0", &Increment { step })
    }

    /// Changes the value of what a command's word names; a missing variable begins as this text. Answers the value, or
    /// the error of reading or changing it; then no variable has changed.
    ///
    /// `NoMemory` if memory is refused.
    pub fn change<C: Changing>(
        &mut self,
        word: &Text,
        missing: &[u8],
        changing: &C,
    ) -> Result<Outcome, NoMemory>
        ensures changed { IfOk result (λ outcome.
            scalars.Changes word.now missing.now (C.meaning changing.now) self.old outcome self.new) }
    {
        if self.watches.is_empty() && !is_special(word) {
            return self.change_here(word, missing, changing);
        }
        self.change_anywhere(word, missing, changing)
    }

    // The same, if nothing is watched and the word names a variable of the current frame.
    fn change_here<C: Changing>(
        &mut self,
        word: &Text,
        missing: &[u8],
        changing: &C,
    ) -> Result<Outcome, NoMemory>
        requires element { names.element_of word.now ≡ None }
        requires global { names.global_of word.now ≡ None }
        requires watches { self.old.watches ≡ [] }
        ensures { IfOk result (λ outcome.
            scalars.Changes word.now missing.now (C.meaning changing.now) self.old outcome self.new) }
    {
        let made = match self.nesting.change_here(word, changing)? {
            Ok(made) => made,
            Err(_) => return self.change_anywhere(word, missing, changing),
        };
        let value = match made.into_result() {
            Ok(value) => value,
            Err(message) => return Outcome::failed(message),
        };
        Ok(Outcome::with_result(self.alloc, value))
    }

    // The same, whatever the word names.
    #[inline(never)]
    fn change_anywhere<C: Changing>(
        &mut self,
        word: &Text,
        missing: &[u8],
        changing: &C,
    ) -> Result<Outcome, NoMemory>
        ensures { IfOk result (λ outcome.
            scalars.Changes word.now missing.now (C.meaning changing.now) self.old outcome self.new) }
    {
        let spot = spot_of(self.alloc, word.as_bytes())?;
        self.change_at(word, &spot, missing, changing)
    }

    // The same, if the spot is that of the word.
    fn change_at<C: Changing>(
        &mut self,
        word: &Text,
        spot: &Spot,
        missing: &[u8],
        changing: &C,
    ) -> Result<Outcome, NoMemory>
        requires { spot.now ≡ spot_of word.now }
        ensures { IfOk result (λ outcome.
            scalars.Changes word.now missing.now (C.meaning changing.now) self.old outcome self.new) }
    {
        match self.nesting.change(spot, changing)? {
            Ok(made) => match made.into_result() {
                Ok(value) => {
                    self.mark_written(spot);
                    Ok(Outcome::with_result(self.alloc, value))
                }
                Err(message) => Outcome::failed(message),
            },
            Err(VarFault::NoSuchVariable | VarFault::NoSuchElement) => {
                self.begin_changed(word, missing, changing)
            }
            Err(fault) => {
                let message = cannot_read(self.alloc, word.as_bytes(), fault)?;
                Outcome::failed(message)
            }
        }
    }

    // A variable begins as what this text becomes.
    fn begin_changed<C: Changing>(
        &mut self,
        word: &Text,
        missing: &[u8],
        changing: &C,
    ) -> Result<Outcome, NoMemory>
        ensures { IfOk result (λ outcome.
            scalars.GivesMade word.now (C.meaning changing.now missing.now) self.old outcome self.new) }
    {
        let mut value = Value::from_text(Text::from_bytes(self.alloc, missing)?);
        let made = changing.change(self.alloc, &mut value)?;
        match made.into_result() {
            Ok(_) => self.give(word, value),
            Err(message) => Outcome::failed(message),
        }
    }
}
