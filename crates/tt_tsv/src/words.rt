//! Which usage words are of.
ghost use Rattle.std.specs.Prelude.{◌≡◌, length};
ghost use Rattle.std.specs.Option.{option_copied, option_map};
ghost use Rattle.tt_tsv.specs.Words as table;

use crate::row::row_of;
use crate::usage::{ArrayUsage, ElementUsage, Usage};
use tt_lists::Matching;
use tt_text::Text;

const USAGES: [Usage; 23] = [
    Usage::Names,
    Usage::Element(ElementUsage::Set),
    Usage::Element(ElementUsage::Read),
    Usage::Element(ElementUsage::Get),
    Usage::Find,
    Usage::Array(ArrayUsage::Unset),
    Usage::Element(ElementUsage::Unset),
    Usage::Array(ArrayUsage::Exists),
    Usage::Exists,
    Usage::Element(ElementUsage::Pop),
    Usage::Move,
    Usage::Element(ElementUsage::Incr),
    Usage::Element(ElementUsage::Append),
    Usage::Element(ElementUsage::Lappend),
    Usage::Element(ElementUsage::Llength),
    Usage::Element(ElementUsage::Lindex),
    Usage::Element(ElementUsage::Lrange),
    Usage::Element(ElementUsage::Lsearch),
    Usage::Element(ElementUsage::LsearchBy),
    Usage::Element(ElementUsage::Linsert),
    Usage::Element(ElementUsage::Lreplace),
    Usage::Element(ElementUsage::Lpush),
    Usage::Element(ElementUsage::Lpop),
];

// Those after `tsv::array`.
const ARRAY_USAGES: [Usage; 5] = [
    Usage::Array(ArrayUsage::Set),
    Usage::Array(ArrayUsage::Get),
    Usage::Array(ArrayUsage::Names),
    Usage::Array(ArrayUsage::Size),
    Usage::Array(ArrayUsage::Reset),
];

/// The mode of `tsv::lsearch` that a word names.
pub(crate) fn matching_of(mode: &[u8]) -> Option<Matching>
    ensures { result ≡ table.matching_of mode.now }
{
    if mode == b"-exact".as_slice() {
        return Some(Matching::Exact);
    }
    if mode == b"-glob".as_slice() {
        return Some(Matching::Glob);
    }
    None
}

fn has_mode(usage: Usage, words: &[Text]) -> bool
    ensures { result ≡ table.has_mode usage words.now }
{
    match (usage, words) {
        (Usage::Element(ElementUsage::LsearchBy), [_, _, mode, ..]) => {
            matching_of(mode.as_bytes()).is_some()
        }
        _ => true,
    }
}

fn is_most(most: Option<usize>, count: usize) -> bool
    ensures { result ≡ table.is_most most count }
{
    match most {
        Some(most) => count <= most,
        None => true,
    }
}

fn counts(usage: Usage, count: usize) -> bool
    ensures { result ≡ table.counts (table.row_of usage) count }
{
    let row = row_of(usage);
    row.least <= count && is_most(row.most, count)
}

fn fits(usage: Usage, name: &[u8], words: &[Text]) -> bool
    ensures { result ≡ table.fits usage name.now words.now }
{
    name == row_of(usage).name && counts(usage, words.len()) && has_mode(usage, words)
}

fn first_fitting(usages: &[Usage], name: &[u8], words: &[Text]) -> Option<Usage>
    ensures { result ≡ table.first_fitting usages.now name.now words.now }
{
    usages
        .iter()
        .copied()
        .find(|usage| fits(*usage, name, words))
}

/// A command's usage and the words after its name; `None` if no command asks these words.
pub(crate) fn asked(words: &[Text]) -> Option<(Usage, &[Text])>
    ensures { option_map (λ asked. (asked.0, asked.1.now)) result ≡ table.usage_of_words words.now }
{
    let [name, words @ ..] = words else {
        return None;
    };
    if name.as_bytes() == b"tsv::array".as_slice() {
        return asked_after_array(words);
    }
    let usage = first_fitting(&USAGES, name.as_bytes(), words)?;
    Some((usage, words))
}

fn asked_after_array(words: &[Text]) -> Option<(Usage, &[Text])>
    ensures { option_map (λ asked. (asked.0, asked.1.now)) result ≡ table.asked_after_array words.now }
{
    let [name, words @ ..] = words else {
        return None;
    };
    let usage = first_fitting(&ARRAY_USAGES, name.as_bytes(), words)?;
    Some((usage, words))
}

/// The array that a command is on.
pub(crate) fn array_in(words: &[Text]) -> Option<&Text>
    ensures { option_copied result ≡ table.array_in (table.usage_of_words words.now) }
{
    match asked(words)? {
        (Usage::Names, _) => None,
        (_, words) => words.first(),
    }
}
