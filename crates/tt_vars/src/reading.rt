ghost use Rattle.std.specs.Prelude.{◌≡◌, IfOk};
ghost use Rattle.tt_lists.specs.Commands.{item_of, range_answer};
ghost use Rattle.tt_number.specs.Numerals.{whole_of};
ghost use Rattle.tt_value.specs.Reading.{count_of, items_of, text_or_message};

use std::alloc::Global;
use tt_lists::{ListAnswer, ListFault};
use tt_number::NumberFault;
use tt_text::{NoMemory, Text};
use tt_value::{Items, Value};

/// A way to read a value, which leaves its text as it is.
pub(crate) trait Reading {
    /// What is read.
    type Answer: Drop;

    ghost use Rattle.std.specs.Prelude.{ℕ, List};

    ghost meaning: { Self → List ℕ → Self.Answer };

    /// `NoMemory` if memory is refused.
    fn read(&self, alloc: Global, value: &mut Value) -> Result<Self::Answer, NoMemory>
        ensures answer { IfOk result (λ answer. answer ≡ meaning self.now value.old) }
        ensures same { value.new ≡ value.old };
}

/// As a whole number (expr(n)).
#[derive(Drop)]
pub(crate) struct AsWhole;

impl Reading for AsWhole {
    type Answer = Result<i64, NumberFault>;

    ghost meaning = { λ reading text. whole_of text };

    fn read(&self, alloc: Global, value: &mut Value) -> Result<Self::Answer, NoMemory> {
        value.whole(alloc)
    }
}

/// As the items of a list (Tcl(n)).
#[derive(Drop)]
pub(crate) struct AsItems;

impl Reading for AsItems {
    type Answer = Result<Items, ListFault>;

    ghost meaning = { λ reading text. items_of text };

    fn read(&self, alloc: Global, value: &mut Value) -> Result<Self::Answer, NoMemory> {
        value.items(alloc)
    }
}

/// As a list, of which the items are counted (llength(n)).
#[derive(Drop)]
pub(crate) struct AsCount;

impl Reading for AsCount {
    type Answer = Result<usize, ListFault>;

    ghost meaning = { λ reading text. count_of text };

    fn read(&self, alloc: Global, value: &mut Value) -> Result<Self::Answer, NoMemory> {
        value.len(alloc)
    }
}

/// As a list, of which an index names an item (lindex(n)).
#[derive(Drop)]
pub(crate) struct AsItem {
    pub(crate) word: Text,
}

impl Reading for AsItem {
    type Answer = ListAnswer;

    ghost meaning = { λ item text. item_of text item.word };

    fn read(&self, alloc: Global, value: &mut Value) -> Result<Self::Answer, NoMemory> {
        value.item(alloc, self.word.as_bytes())
    }
}

/// As a list, of which two indices name a range (lrange(n)).
#[derive(Drop)]
pub(crate) struct AsRange {
    pub(crate) first: Text,
    pub(crate) last: Text,
}

impl Reading for AsRange {
    type Answer = Result<Value, Text>;

    ghost meaning = { λ range text. text_or_message (range_answer text range.first range.last) };

    fn read(&self, alloc: Global, value: &mut Value) -> Result<Self::Answer, NoMemory> {
        value.range(alloc, self.first.as_bytes(), self.last.as_bytes())
    }
}
