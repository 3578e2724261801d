//! What commands do to an element: by its value and the words after its key.
ghost use Rattle.std.specs.Prelude.{◌≡◌, [], IfOk, Ok};
ghost use Rattle.std.specs.Option.{option_map};
ghost use Rattle.tt_tsv.specs.Elements as table;
ghost use Rattle.tt_tsv.specs.inside.Changed.{value_left};

use crate::lists;
use crate::numbers::increment;
use crate::popping::pop;
use crate::usage::ElementUsage;
use std::alloc::Global;
use tt_lists::ListAnswer;
use tt_text::{NoMemory, Text, Texts};
use tt_value::{Appending, Changing, Lengthening, Value};

/// What becomes of an element, and what is answered.
#[derive(Drop)]
pub(crate) enum Change {
    /// It stays as it is.
    Kept(ListAnswer),
    /// It has this value, and the text is answered.
    Put(Value, Text),
    /// It is no more.
    Removed(Text),
}

/// For words that no command asks.
pub(crate) fn not_asked(alloc: Global) -> Result<Change, NoMemory>
    ensures { result ≡ Ok table.not_asked }
{
    Ok(Change::Kept(ListAnswer::Bad(Text::new(alloc))))
}

/// What was made is the element's value, and is answered.
pub(crate) fn puts(value: &mut Value, answer: ListAnswer) -> Result<Change, NoMemory>
    ensures change { IfOk result (λ change. change ≡ table.puts answer) }
    ensures value { IfOk result (λ change. value.new ≡ value_left change value.old) }
{
    match answer {
        ListAnswer::Made(text) => {
            *value = Value::from_text(text.copy()?);
            Ok(Change::Put(value.copy()?, text))
        }
        ListAnswer::Bad(message) => Ok(Change::Kept(ListAnswer::Bad(message))),
    }
}

/// What a missing element counts as.
pub(crate) fn missing_as(usage: ElementUsage) -> Option<&'static [u8]>
    ensures { option_map (λ value. value.now) result ≡ table.missing_as usage }
{
    match usage {
        ElementUsage::Incr => Some(b"0"),
        ElementUsage::Set | ElementUsage::Append | ElementUsage::Lappend | ElementUsage::Lpush => {
            Some(b"")
        }
        _ => None,
    }
}

/// Changes the value of an element, and says what becomes of it. One that is to be removed stays as it is.
pub(crate) fn change_of(
    alloc: Global,
    usage: ElementUsage,
    value: &mut Value,
    words: &[Text],
) -> Result<Change, NoMemory>
    ensures change { IfOk result (λ change. change ≡ table.change_of usage value.old words.now) }
    ensures value { IfOk result (λ change. value.new ≡ value_left change value.old) }
{
    match usage {
        ElementUsage::Set => set(alloc, value, words),
        ElementUsage::Read | ElementUsage::Get => tell(alloc, value),
        ElementUsage::Unset => Ok(Change::Removed(Text::new(alloc))),
        ElementUsage::Pop => Ok(Change::Removed(value.text(alloc)?)),
        ElementUsage::Incr => increment(alloc, value, words),
        ElementUsage::Append => {
            let texts = Texts::from_copies(alloc, words)?;
            grow(alloc, value, &Appending { texts })
        }
        ElementUsage::Lappend => {
            let items = Texts::from_copies(alloc, words)?;
            grow(alloc, value, &Lengthening { items })
        }
        ElementUsage::Llength => lists::count_of(alloc, value),
        ElementUsage::Lindex => lists::item_of(alloc, value, words),
        ElementUsage::Lrange => lists::range_of(alloc, value, words),
        ElementUsage::Lsearch => lists::search(alloc, value, words),
        ElementUsage::LsearchBy => lists::search_by(alloc, value, words),
        ElementUsage::Linsert => lists::insert_into(alloc, value, words),
        ElementUsage::Lreplace => lists::replace_in(alloc, value, words),
        ElementUsage::Lpush => lists::push(alloc, value, words),
        ElementUsage::Lpop => pop(alloc, value, words),
    }
}

fn tell(alloc: Global, value: &mut Value) -> Result<Change, NoMemory>
    ensures change { IfOk result (λ change. change ≡ table.change_of ElementUsage.Get value.old []) }
    ensures value { IfOk result (λ change. value.new ≡ value_left change value.old) }
{
    let text = value.text(alloc)?;
    Ok(Change::Kept(ListAnswer::Made(text)))
}

fn set(alloc: Global, value: &mut Value, words: &[Text]) -> Result<Change, NoMemory>
    ensures change { IfOk result (λ change. change ≡ table.sets words.now) }
    ensures value { IfOk result (λ change. value.new ≡ value_left change value.old) }
{
    match words {
        [text] => puts(value, ListAnswer::Made(text.copy()?)),
        _ => not_asked(alloc),
    }
}

// The words at the end of the value, which grows where it stands.
fn grow<C: Changing>(alloc: Global, value: &mut Value, changing: &C) -> Result<Change, NoMemory>
    ensures change { IfOk result (λ change. change ≡ table.puts (C.meaning changing.now value.old)) }
    ensures value { IfOk result (λ change. value.new ≡ value_left change value.old) }
{
    match changing.change(alloc, value)?.into_result() {
        Ok(copy) => {
            drop(copy);
            let text = value.text(alloc)?;
            Ok(Change::Put(value.copy()?, text))
        }
        Err(message) => Ok(Change::Kept(ListAnswer::Bad(message))),
    }
}
