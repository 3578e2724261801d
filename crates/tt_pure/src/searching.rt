//! What lsearch(n) answers to words.
ghost use Rattle.std.specs.Prelude.{◌≡◌, IfOk};
ghost use Rattle.tt_pure.specs.Searching.{IsLsearch, IsSearchBy, plain_search, search_flags, with_flag, with_flags};
ghost use Rattle.tt_pure.specs.Flags.{first_unknown};
ghost use Rattle.tt_lists.specs.Searching.{search_answer};
ghost use Rattle.tt_pure.specs.Usages.{wrong_number};

use crate::flags::{Flag, first_unknown, named};
use crate::made::{no_list, no_option, refuse};
use std::alloc::Global;
use tt_lists::{Matching, Search, find_among};
use tt_text::{NoMemory, Text};
use tt_value::{Made, Value, texts_of};

const FLAGS: [Flag; 5] = [Flag::Exact, Flag::Glob, Flag::All, Flag::Inline, Flag::Not];

pub(crate) fn lsearch(alloc: Global, usage: &[u8], words: &[Value]) -> Result<Made, NoMemory>
    ensures { IfOk result (λ made. IsLsearch (wrong_number usage.now) words.now made) }
{
    let (options, last) = words.split_at(words.len().saturating_sub(2));
    match last {
        [list, pattern] => {
            let options = texts_of(alloc, options)?;
            let pattern = pattern.to_text(alloc)?;
            find_by(alloc, usage, options.as_slice(), list, pattern.as_bytes())
        }
        _ => refuse(alloc, usage),
    }
}

fn find_by(
    alloc: Global,
    usage: &[u8],
    options: &[Text],
    list: &Value,
    pattern: &[u8],
) -> Result<Made, NoMemory>
    ensures { IfOk result (λ made.
        IsSearchBy (wrong_number usage.now) (first_unknown search_flags options.now) options.now list.now
        pattern.now made) }
{
    if let Some(word) = first_unknown(&FLAGS, options) {
        return no_option(alloc, word.as_bytes());
    }
    match with_flags(options) {
        Some(how) => find(alloc, how, list, pattern),
        None => refuse(alloc, usage),
    }
}

fn find(alloc: Global, how: Search, list: &Value, pattern: &[u8]) -> Result<Made, NoMemory>
    ensures { IfOk result (λ made. made ≡ search_answer how list.now pattern.now) }
{
    match list.to_items(alloc)? {
        Ok(items) => {
            let answer = find_among(alloc, how, items.as_slice(), pattern)?;
            Ok(Made::from_answer(answer))
        }
        Err(fault) => no_list(alloc, &fault),
    }
}

fn with_flags(options: &[Text]) -> Option<Search>
    ensures { result ≡ with_flags plain_search options.now }
{
    let mut how = Search {
        matching: Matching::Glob,
        all: false,
        inline: false,
        not: false,
    };
    for word in options {
        how = with_flag(how, named(&FLAGS, word.as_bytes())?);
    }
    Some(how)
}

fn with_flag(how: Search, flag: Flag) -> Search
    ensures { result ≡ with_flag how flag }
{
    match flag {
        Flag::Exact => Search {
            matching: Matching::Exact,
            ..how
        },
        Flag::Glob => Search {
            matching: Matching::Glob,
            ..how
        },
        Flag::All => Search { all: true, ..how },
        Flag::Inline => Search {
            inline: true,
            ..how
        },
        Flag::Not => Search { not: true, ..how },
        _ => how,
    }
}
