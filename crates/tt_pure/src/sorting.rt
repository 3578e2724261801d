//! What lsort(n) answers to words.
ghost use Rattle.std.specs.Prelude.{◌≡◌, IfOk};
ghost use Rattle.tt_pure.specs.Sorting.{IsLsort, IsSortBy, plain_sort, sort_flags, with_flag, with_flags};
ghost use Rattle.tt_pure.specs.Flags.{first_unknown};
ghost use Rattle.tt_list_commands.specs.Sorting.{IsSortAnswer};
ghost use Rattle.tt_pure.specs.Usages.{wrong_number};

use crate::flags::{Flag, first_unknown, named};
use crate::made::{listed, no_list, no_option, refuse};
use std::alloc::Global;
use tt_list_commands::Sorting;
use tt_text::{NoMemory, Text};
use tt_value::{Made, Value, texts_of};

const FLAGS: [Flag; 5] = [
    Flag::Ascii,
    Flag::Integer,
    Flag::Increasing,
    Flag::Decreasing,
    Flag::Unique,
];

pub(crate) fn lsort(alloc: Global, usage: &[u8], words: &[Value]) -> Result<Made, NoMemory>
    ensures { IfOk result (λ made. IsLsort (wrong_number usage.now) words.now made) }
{
    let (options, last) = words.split_at(words.len().saturating_sub(1));
    match last {
        [list] => {
            let options = texts_of(alloc, options)?;
            sort_by(alloc, usage, options.as_slice(), list)
        }
        _ => refuse(alloc, usage),
    }
}

fn sort_by(alloc: Global, usage: &[u8], options: &[Text], list: &Value) -> Result<Made, NoMemory>
    ensures { IfOk result (λ made.
        IsSortBy (wrong_number usage.now) (first_unknown sort_flags options.now) options.now list.now
        made) }
{
    if let Some(word) = first_unknown(&FLAGS, options) {
        return no_option(alloc, word.as_bytes());
    }
    match with_flags(options) {
        Some(how) => sort(alloc, how, list),
        None => refuse(alloc, usage),
    }
}

fn sort(alloc: Global, how: Sorting, list: &Value) -> Result<Made, NoMemory>
    ensures { IfOk result (λ made. IsSortAnswer how list.now made) }
{
    match list.to_items(alloc)? {
        Ok(items) => listed(tt_list_commands::sort(alloc, how, items.as_slice())?),
        Err(fault) => no_list(alloc, &fault),
    }
}

fn with_flags(options: &[Text]) -> Option<Sorting>
    ensures { result ≡ with_flags plain_sort options.now }
{
    let mut how = Sorting {
        integer: false,
        decreasing: false,
        unique: false,
    };
    for word in options {
        how = with_flag(how, named(&FLAGS, word.as_bytes())?);
    }
    Some(how)
}

fn with_flag(how: Sorting, flag: Flag) -> Sorting
    ensures { result ≡ with_flag how flag }
{
    match flag {
        Flag::Ascii => Sorting {
            integer: false,
            ..how
        },
        Flag::Integer => Sorting {
            integer: true,
            ..how
        },
        Flag::Increasing => Sorting {
            decreasing: false,
            ..how
        },
        Flag::Decreasing => Sorting {
            decreasing: true,
            ..how
        },
        Flag::Unique => Sorting {
            unique: true,
            ..how
        },
        _ => how,
    }
}
