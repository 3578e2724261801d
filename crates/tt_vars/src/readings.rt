//! What the values of names are read as: numbers and lists. A value keeps what it was read as, so that its items are
//! split once.
ghost use Rattle.std.specs.Prelude.{◌≡◌, ◌<◌, length, IfOk};
ghost use Rattle.std.specs.Option.{option_copied};
ghost use Rattle.tt_lists.specs.Commands.{item_of, range_answer};
ghost use Rattle.tt_number.specs.Numerals.{whole_of};
ghost use Rattle.tt_value.specs.Reading.{count_of, items_of, text_or_message};
ghost use Rattle.tt_vars.specs.Links.{ReadsAs, place_of};

use crate::reading::{AsCount, AsItem, AsItems, AsRange, AsWhole};
use crate::{VarFault, Vars};
use tt_lists::{ListAnswer, ListFault};
use tt_number::NumberFault;
use tt_text::{NoMemory, Text};
use tt_value::{Items, Value};

impl Vars {
    /// What the value of a name is read as as a whole number (expr(n)), with the faults of `read`. No text changes.
    ///
    /// `NoMemory` if memory for a list's text is refused.
    pub fn whole(
        &mut self,
        frame: u64,
        name: &Text,
        index: Option<&Text>,
    ) -> Result<Result<Result<i64, NumberFault>, VarFault>, NoMemory>
        requires { frame < length self.old }
        ensures answer { IfOk result (λ answer.
            ReadsAs whole_of self.old (place_of frame name.now (option_copied index.entry)) answer) }
        ensures same { self.new ≡ self.old }
    {
        self.read_as(frame, name, index, &AsWhole)
    }

    /// What the value of a name is split into as a list (Tcl(n)), with the faults of `read`. No text changes.
    ///
    /// `NoMemory` if memory for the items is refused.
    pub fn items(
        &mut self,
        frame: u64,
        name: &Text,
        index: Option<&Text>,
    ) -> Result<Result<Result<Items, ListFault>, VarFault>, NoMemory>
        requires { frame < length self.old }
        ensures answer { IfOk result (λ answer.
            ReadsAs items_of self.old (place_of frame name.now (option_copied index.entry)) answer) }
        ensures same { self.new ≡ self.old }
    {
        self.read_as(frame, name, index, &AsItems)
    }

    /// How many items the list has that is the value of a name (llength(n)), with the faults of `read`. No text
    /// changes.
    ///
    /// `NoMemory` if memory for the items is refused.
    pub fn count(
        &mut self,
        frame: u64,
        name: &Text,
        index: Option<&Text>,
    ) -> Result<Result<Result<usize, ListFault>, VarFault>, NoMemory>
        requires { frame < length self.old }
        ensures answer { IfOk result (λ answer.
            ReadsAs count_of self.old (place_of frame name.now (option_copied index.entry)) answer) }
        ensures same { self.new ≡ self.old }
    {
        self.read_as(frame, name, index, &AsCount)
    }

    /// The item that a word names in the list that is the value of a name (lindex(n)), with the answers of
    /// `Value::item` and the faults of `read`. No text changes.
    ///
    /// `NoMemory` if memory is refused.
    pub fn item(
        &mut self,
        frame: u64,
        name: &Text,
        index: Option<&Text>,
        word: &Text,
    ) -> Result<Result<ListAnswer, VarFault>, NoMemory>
        requires { frame < length self.old }
        ensures answer { IfOk result (λ answer. ReadsAs (λ text. item_of text word.now) self.old
            (place_of frame name.now (option_copied index.entry)) answer) }
        ensures same { self.new ≡ self.old }
    {
        let reading = AsItem { word: word.copy()? };
        self.read_as(frame, name, index, &reading)
    }

    /// The range between two words of the list that is the value of a name (lrange(n)), with the answers of
    /// `Value::range` and the faults of `read`. No text changes.
    ///
    /// `NoMemory` if memory is refused.
    pub fn range(
        &mut self,
        frame: u64,
        name: &Text,
        index: Option<&Text>,
        first: &Text,
        last: &Text,
    ) -> Result<Result<Result<Value, Text>, VarFault>, NoMemory>
        requires { frame < length self.old }
        ensures answer { IfOk result (λ answer.
            ReadsAs (λ text. text_or_message (range_answer text first.now last.now)) self.old
            (place_of frame name.now (option_copied index.entry)) answer) }
        ensures same { self.new ≡ self.old }
    {
        let reading = AsRange {
            first: first.copy()?,
            last: last.copy()?,
        };
        self.read_as(frame, name, index, &reading)
    }
}
