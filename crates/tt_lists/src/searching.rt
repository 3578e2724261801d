ghost use Rattle.std.specs.Prelude.{◌≡◌, IfOk};
ghost use Rattle.tt_lists.specs.Searching.{is_alike, is_wanted, search_answer, search_result, reports_from, report_of};
ghost use Rattle.tt_lists.specs.declared.answer.ListAnswer.TheVariants.{Made};

use crate::answer::ListAnswer;
use crate::commands::{count_text, no_list};
use crate::items::Split;
use crate::spelling::join_list;
use crate::splitting::split;
use std::alloc::Global;
use tt_text::{NoMemory, Text, Texts, glob};

/// How items are compared with a pattern (lsearch(n)).
#[derive(Clone, Copy, Debug, PartialEq, Eq)]
pub enum Matching {
    /// An item matches the pattern that is the same text.
    Exact,
    /// An item matches a pattern as string(n), `string match`, says.
    Glob,
}

/// What is looked for in a list, and what is reported of it (lsearch(n)).
#[derive(Clone, Copy, Debug, PartialEq, Eq)]
pub struct Search {
    /// How items are compared with the pattern.
    pub matching: Matching,
    /// Whether all that are wanted are reported, as a list, or the first alone.
    pub all: bool,
    /// Whether the items are reported, or their places, from 0.
    pub inline: bool,
    /// Whether those are wanted that don't match.
    pub not: bool,
}

/// What a search of a list reports (lsearch(n)): the place of the first item that is wanted and -1 if there is none,
/// or what `how` asks for in place of that.
///
/// `Bad` if the text is no list. `NoMemory` if memory is refused.
pub fn find(alloc: Global, how: Search, list: &[u8], pattern: &[u8]) -> Result<ListAnswer, NoMemory>
    ensures answer { IfOk result (λ answer. answer ≡ search_answer how list.now pattern.now) }
{
    match split(alloc, list)? {
        Split::Items(items) => find_among(alloc, how, items.as_slice(), pattern),
        Split::Bad(fault) => no_list(alloc, &fault),
    }
}

/// What a search of these items reports.
///
/// `NoMemory` if memory is refused.
pub fn find_among(
    alloc: Global,
    how: Search,
    items: &[Text],
    pattern: &[u8],
) -> Result<ListAnswer, NoMemory>
    ensures answer { IfOk result (λ it. it ≡ Made (search_result how (reports_from how pattern.now 0 items.now))) }
{
    let reports = reports_of_items(alloc, how, items, pattern)?;
    let text = search_result(alloc, how, reports.as_slice())?;
    Ok(ListAnswer::Made(text))
}

fn reports_of_items(
    alloc: Global,
    how: Search,
    items: &[Text],
    pattern: &[u8],
) -> Result<Texts, NoMemory>
    ensures { IfOk result (λ reports. reports ≡ reports_from how pattern.now 0 items.now) }
{
    let mut reports = Texts::new(alloc);
    for (place, item) in items.iter().enumerate() {
        if is_wanted(how, pattern, item.as_bytes()) {
            reports.push(report_of(alloc, how, place, item)?)?;
            if !how.all {
                return Ok(reports);
            }
        }
    }
    Ok(reports)
}

fn is_wanted(how: Search, pattern: &[u8], item: &[u8]) -> bool
    ensures { result ≡ is_wanted how pattern.now item.now }
{
    is_alike(how.matching, pattern, item) != how.not
}

fn is_alike(matching: Matching, pattern: &[u8], item: &[u8]) -> bool
    ensures { result ≡ is_alike matching pattern.now item.now }
{
    match matching {
        Matching::Exact => item == pattern,
        Matching::Glob => glob(pattern, item),
    }
}

fn report_of(alloc: Global, how: Search, place: usize, item: &Text) -> Result<Text, NoMemory>
    ensures { IfOk result (λ reports. reports ≡ report_of how place item.now) }
{
    if how.inline {
        item.copy()
    } else {
        count_text(alloc, place)
    }
}

fn search_result(alloc: Global, how: Search, reports: &[Text]) -> Result<Text, NoMemory>
    ensures { IfOk result (λ text. text ≡ search_result how reports.now) }
{
    if how.all {
        return join_list(alloc, reports);
    }
    match reports.first() {
        Some(first) => first.copy(),
        None if how.inline => Ok(Text::new(alloc)),
        None => Text::from_bytes(alloc, b"-1"),
    }
}
