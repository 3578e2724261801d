ghost use Rattle.std.specs.Prelude.{◌≡◌, ◌++◌, [], Err, IfErr, IfOk, IfSome, Ok, OnErr, OnOk};
ghost use Rattle.std.specs.Fmt.{signed_decimal};
ghost use Rattle.std.specs.List.{flat_map};
ghost use Rattle.tt_lists.specs.Commands.{item_of, range_answer};
ghost use Rattle.tt_lists.specs.Reading.{split_of};
ghost use Rattle.tt_lists.specs.Spelling.{list_of};
ghost use Rattle.tt_number.specs.Numerals.{whole_of};
ghost use Rattle.tt_pairs.specs.Pairs as entries;
ghost use Rattle.tt_pairs.specs.Reading.{reading_of};
ghost use Rattle.tt_value.specs.Growing.{list_with_texts};
ghost use Rattle.tt_value.specs.Dictionaries.{after};
ghost use Rattle.tt_value.specs.Reading.{count_of, items_of, text_or_message};

use crate::items::Items;
use crate::kept::{self, Kept};
use crate::kept_pairs;
use crate::listing::Listing;
use crate::pairing::Pairing;
use crate::pairs::Pairs;
use std::alloc::Global;
use std::marker::Model;
use std::sync::Arc;
use tt_lists::{ListAnswer, ListFault, Split, item_among, range_among};
use tt_number::NumberFault;
use tt_pairs::Dictionary;
use tt_text::{NoMemory, Text, Texts};

/// A value, which is its text (Tcl(n)). Contracts see the text.
///
/// It keeps a whole number, a text, a list with its items, or a dictionary with its pairs. Readings take the value
/// mutably, since it keeps what it was read as; the text stays as it was. A copy shares a list or a dictionary, and
/// nothing that is done to the one changes the other.
#[derive(Debug, Drop)]
pub struct Value {
    kept: Kept,
}

// How many bytes a long text has at least.
const LONG: usize = 64;

// A value takes no more room than a text and a word.
const _: () = prove!(size_of::<Value>() == 24);

impl Model for Value {
    ghost use Rattle.std.specs.Prelude.{ℕ, List};

    ghost Value = { List ℕ };

    ghost use Rattle.tt_value.specs.inside.KeptText.{text_of};

    ghost view = { λ value. text_of value.kept };
}

impl Value {
    /// The empty value. It takes no memory.
    pub fn new(alloc: Global) -> Self
        ensures empty { result ≡ [] }
    {
        Value::from_text(Text::new(alloc))
    }

    /// The value of a text.
    pub fn from_text(text: Text) -> Self
        ensures text { result ≡ text }
    {
        Value {
            kept: Kept::Text(text),
        }
    }

    /// The value of a whole number, in decimal. It takes no memory.
    pub fn from_whole(number: i64) -> Self
        ensures written { result ≡ signed_decimal number }
    {
        Value {
            kept: Kept::Number(number),
        }
    }

    /// The value of the list of these items, in its canonical text, which is made when it is asked for (list(n)).
    ///
    /// `NoMemory` if the memory for a pointer to them is refused.
    pub fn from_items(items: Vec<Text>) -> Result<Self, NoMemory>
        ensures list { IfOk result (λ value. value ≡ list_of items.items) }
    {
        let alloc = *items.allocator();
        let list = Arc::new(alloc, Listing::from_items(items))?;
        Ok(Value {
            kept: Kept::List(list),
        })
    }

    /// A second value of the same text, in constant time. It takes no memory.
    ///
    /// `NoMemory` if there are too many copies.
    pub fn copy(&self) -> Result<Self, NoMemory>
        ensures copied { IfOk result (λ value. value ≡ self.now) }
    {
        let kept = kept::copy(&self.kept)?;
        Ok(Value { kept })
    }

    /// The text. That of a number, and of a list whose text was not asked for, is made.
    ///
    /// `NoMemory` if memory is refused.
    pub fn to_text(&self, alloc: Global) -> Result<Text, NoMemory>
        ensures text { IfOk result (λ text. text ≡ self.now) }
    {
        kept::text_of(alloc, &self.kept)
    }

    /// The text. That of a list is kept from then on; a list that copies share is copied for that.
    ///
    /// `NoMemory` if memory is refused.
    pub fn text(&mut self, alloc: Global) -> Result<Text, NoMemory>
        ensures text { IfOk result (λ text. text ≡ self.old) }
        ensures same { self.new ≡ self.old }
    {
        kept::kept_text(alloc, &mut self.kept)
    }

    /// The text, out of the value.
    ///
    /// `NoMemory` if memory is refused.
    pub fn into_text(self, alloc: Global) -> Result<Text, NoMemory>
        ensures text { IfOk result (λ text. text ≡ self) }
    {
        let Value { kept } = self;
        match kept {
            Kept::Text(text) => Ok(text),
            kept => kept::text_of(alloc, &kept),
        }
    }

    /// Whether a text is kept that is long enough for it to pay that it is kept as a list, once it is read as one. No
    /// contract knows it, since no answer hangs on it.
    pub fn is_long_text(&self) -> bool {
        match &self.kept {
            Kept::Text(text) => LONG <= text.as_bytes().len(),
            _ => false,
        }
    }

    /// The text, if it is kept as such; of another value nothing is said.
    pub fn as_text(&self) -> Option<&Text>
        ensures text { IfSome result (λ text. text.now ≡ self.now) }
    {
        match &self.kept {
            Kept::Text(text) => Some(text),
            _ => None,
        }
    }

    /// The whole number that is kept, whose decimal text this is; of another value nothing is said.
    pub fn number(&self) -> Option<i64>
        ensures written { IfSome result (λ number. self.now ≡ signed_decimal number) }
    {
        match self.kept {
            Kept::Number(number) => Some(number),
            _ => None,
        }
    }

    /// What the text is read as as a whole number (expr(n), OPERANDS), with the faults of `read_whole`. A number whose
    /// decimal text the value has is kept.
    ///
    /// `NoMemory` if the memory for the text of a list is refused.
    pub fn whole(&mut self, alloc: Global) -> Result<Result<i64, NumberFault>, NoMemory>
        ensures answer { IfOk result (λ answer. answer ≡ whole_of self.old) }
        ensures same { self.new ≡ self.old }
    {
        kept::whole_of(alloc, &mut self.kept)
    }

    /// What the text is split into as a list (Tcl(n), lists), with the faults of `split`. The items are kept beside the
    /// text, so that the next reading takes constant time.
    ///
    /// `NoMemory` if the memory for the items is refused.
    pub fn items(&mut self, alloc: Global) -> Result<Result<Items, ListFault>, NoMemory>
        ensures answer { IfOk result (λ answer. answer ≡ items_of self.old) }
        ensures same { self.new ≡ self.old }
    {
        kept::items_of(alloc, &mut self.kept)
    }

    /// The items of the list, which only the answer keeps: in constant time if the value keeps them already, and else
    /// in the time of a reading. Or why there are none.
    ///
    /// `NoMemory` if the memory for the items is refused.
    pub fn to_items(&self, alloc: Global) -> Result<Result<Items, ListFault>, NoMemory>
        ensures items { IfOk result (λ read. IfOk read (λ items. split_of self.now ≡ Split.Items items)) }
        ensures fault { IfOk result (λ read. IfErr read (λ fault. split_of self.now ≡ Split.Bad fault)) }
    {
        kept::own_items(alloc, &self.kept)
    }

    /// How many items the list has (llength(n)), in constant time once its items are kept; or why it is none.
    ///
    /// `NoMemory` if the memory for the items is refused.
    pub fn len(&mut self, alloc: Global) -> Result<Result<usize, ListFault>, NoMemory>
        ensures answer { IfOk result (λ answer. answer ≡ count_of self.old) }
        ensures same { self.new ≡ self.old }
    {
        match self.items(alloc)? {
            Ok(items) => Ok(Ok(items.as_slice().len())),
            Err(fault) => Ok(Err(fault)),
        }
    }

    /// The item that an index names (lindex(n)), in constant time once the items are kept. Outside the list it is
    /// empty.
    ///
    /// `Bad` if the text is no list or the word no index, tested in this order. `NoMemory` if memory is refused.
    pub fn item(&mut self, alloc: Global, word: &[u8]) -> Result<ListAnswer, NoMemory>
        ensures answer { IfOk result (λ answer. answer ≡ item_of self.old word.now) }
        ensures same { self.new ≡ self.old }
    {
        match self.items(alloc)? {
            Ok(items) => item_among(alloc, items.as_slice(), word),
            Err(fault) => Ok(ListAnswer::Bad(fault.message(alloc)?)),
        }
    }

    /// The list of the items from the first index up to the last one (lrange(n)), in time of these items once all are
    /// kept; or the message if the text is no list or a word is no index, tested in this order.
    ///
    /// `NoMemory` if memory is refused.
    pub fn range(
        &mut self,
        alloc: Global,
        first: &[u8],
        last: &[u8],
    ) -> Result<Result<Value, Text>, NoMemory>
        ensures answer { IfOk result (λ answer. answer ≡ text_or_message (range_answer self.old first.now last.now)) }
        ensures same { self.new ≡ self.old }
    {
        let items = match self.items(alloc)? {
            Ok(items) => items,
            Err(fault) => return Ok(Err(fault.message(alloc)?)),
        };
        match range_among(alloc, items.as_slice(), first, last)? {
            Ok(part) => Ok(Ok(Value::from_copies(alloc, part)?)),
            Err(message) => Ok(Err(message)),
        }
    }

    /// The value of the list of copies of these items (list(n)).
    ///
    /// `NoMemory` if memory is refused.
    pub fn from_copies(alloc: Global, items: &[Text]) -> Result<Self, NoMemory>
        ensures list { IfOk result (λ value. value ≡ list_of items.now) }
    {
        let copies = Texts::from_copies(alloc, items)?;
        Value::from_items(copies.into_vec())
    }

    /// Puts items at the end of the list, whose text is then the canonical one of the longer list (lappend(n)); or says
    /// why the text is none, and then it stays. Once its items are kept and if no copy shares them, that takes time of
    /// the new items alone.
    ///
    /// `NoMemory` if memory is refused; then some of the items may be there.
    pub fn push(&mut self, alloc: Global, items: &[Text]) -> Result<Result<(), ListFault>, NoMemory>
        ensures pushed { IfOk result (λ pushed.
            OnOk pushed (list_with_texts items.now self.old ≡ ListAnswer.Made self.new)) }
        ensures fault { IfOk result (λ pushed. IfErr pushed (λ fault. split_of self.old ≡ Split.Bad fault)) }
        ensures stays { IfOk result (λ pushed. OnErr pushed (self.new ≡ self.old)) }
    {
        kept::push(alloc, &mut self.kept, items)
    }

    /// The value of a dictionary, in its canonical text, which is made when it is asked for (dict(n)).
    ///
    /// `NoMemory` if the memory for a pointer to it is refused.
    pub fn from_pairs(alloc: Global, pairs: Dictionary) -> Result<Self, NoMemory>
        ensures text { IfOk result (λ value. value ≡ entries.text_of pairs) }
    {
        let pairing = Arc::new(alloc, Pairing::from_pairs(pairs))?;
        Ok(Value {
            kept: Kept::Pairs(pairing),
        })
    }

    /// What the text is read as as a dictionary (dict(n)), with the messages of `tt_pairs::read`. The pairs are kept
    /// beside the text, so that the next reading takes constant time.
    ///
    /// `NoMemory` if memory is refused.
    pub fn pairs(&mut self, alloc: Global) -> Result<Result<Pairs, Text>, NoMemory>
        ensures reading { IfOk result (λ reading. reading ≡ reading_of self.old) }
        ensures same { self.new ≡ self.old }
    {
        kept_pairs::pairs_of(alloc, &mut self.kept)
    }

    /// The same, which only the answer keeps: in constant time if the value keeps the pairs already.
    ///
    /// `NoMemory` if memory is refused.
    pub fn to_pairs(&self, alloc: Global) -> Result<Result<Pairs, Text>, NoMemory>
        ensures reading { IfOk result (λ reading. reading ≡ reading_of self.now) }
    {
        kept_pairs::own_pairs(alloc, &self.kept)
    }

    /// Makes the text the canonical one of the pairs that the value is read as (dict(n)); or says why it is no
    /// dictionary, and then it stays.
    ///
    /// `NoMemory` if memory is refused; then nothing is said of the value.
    pub fn pairs_alone(&mut self, alloc: Global) -> Result<Result<(), Text>, NoMemory>
        ensures alone { IfOk result (λ alone. OnOk alone (after (λ pairs. pairs) (reading_of self.old) ≡ Ok self.new)) }
        ensures fault { IfOk result (λ alone. IfErr alone (λ message. reading_of self.old ≡ Err message)) }
        ensures stays { IfOk result (λ alone. OnErr alone (self.new ≡ self.old)) }
    {
        kept_pairs::pairs_alone(alloc, &mut self.kept)
    }

    /// Gives a key this value in the dictionary that the value is, whose text is then the canonical one (dict(n)); or
    /// says why it is none, and then it stays. Once its pairs are kept and if no copy shares them, that takes constant
    /// time.
    ///
    /// `NoMemory` if memory is refused; then nothing is said of the value.
    pub fn put_pair(
        &mut self,
        alloc: Global,
        key: Text,
        value: Text,
    ) -> Result<Result<(), Text>, NoMemory>
        ensures put { IfOk result (λ put. OnOk put
            (after (λ pairs. entries.with_pair pairs key value) (reading_of self.old) ≡ Ok self.new)) }
        ensures fault { IfOk result (λ put. IfErr put (λ message. reading_of self.old ≡ Err message)) }
        ensures stays { IfOk result (λ put. OnErr put (self.new ≡ self.old)) }
    {
        kept_pairs::put_pair(alloc, &mut self.kept, key, value)
    }

    /// Takes out the pair of a key, likewise; those after it move up.
    ///
    /// `NoMemory` if memory is refused; then nothing is said of the value.
    pub fn remove_pair(&mut self, alloc: Global, key: &Text) -> Result<Result<(), Text>, NoMemory>
        ensures removed { IfOk result (λ removed. OnOk removed
            (after (λ pairs. entries.without_key pairs key.now) (reading_of self.old) ≡ Ok self.new)) }
        ensures fault { IfOk result (λ removed. IfErr removed (λ message. reading_of self.old ≡ Err message)) }
        ensures stays { IfOk result (λ removed. OnErr removed (self.new ≡ self.old)) }
    {
        kept_pairs::remove_pair(alloc, &mut self.kept, key)
    }

    /// Puts texts at the end of the text, as bytes (append(n)). If no copy shares the text, it grows in place.
    ///
    /// `NoMemory` if memory is refused; then some of the texts may be there.
    pub fn append(&mut self, alloc: Global, texts: &[Text]) -> Result<(), NoMemory>
        ensures appended { OnOk result (self.new ≡ self.old ++ flat_map (λ text. text) texts.now) }
    {
        kept::append(alloc, &mut self.kept, texts)
    }
}
