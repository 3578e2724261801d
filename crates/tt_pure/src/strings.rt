//! What string(n) answers to words.
ghost use Rattle.std.specs.Prelude.{IfOk};
ghost use Rattle.tt_pure.specs.StringTable.{IsString, IsSubcommandAnswer};
ghost use Rattle.tt_pure.specs.Usages.{wrong_number};

mod comparing;
mod making;
mod parts;

use crate::subcommand::{Subcommand, subcommand_of, usage_of};
use crate::usages::{bad_option, wrong_number};
use std::alloc::Global;
use tt_lists::ListAnswer;
use tt_strings::Side;
use tt_text::{NoMemory, Text};

pub(crate) fn string(alloc: Global, usage: &[u8], words: &[Text]) -> Result<ListAnswer, NoMemory>
    ensures { IfOk result (IsString (wrong_number usage.now) words.now) }
{
    let [name, words @ ..] = words else {
        return wrong_number(alloc, usage);
    };
    match subcommand_of(name.as_bytes()) {
        Some(subcommand) => subcommand_answer(alloc, subcommand, words),
        None => bad_option(alloc, name.as_bytes()),
    }
}

fn subcommand_answer(
    alloc: Global,
    subcommand: Subcommand,
    words: &[Text],
) -> Result<ListAnswer, NoMemory>
    ensures { IfOk result (IsSubcommandAnswer subcommand words.now) }
{
    let usage = usage_of(subcommand);
    match subcommand {
        Subcommand::Length => parts::length_answer(alloc, usage, words),
        Subcommand::Index => parts::index_answer(alloc, usage, words),
        Subcommand::Range => parts::range_answer(alloc, usage, words),
        Subcommand::Reverse => parts::reverse_answer(alloc, usage, words),
        Subcommand::Compare => comparing::compare_answer(alloc, usage, words),
        Subcommand::Equal => comparing::equal_answer(alloc, usage, words),
        Subcommand::Match => comparing::match_answer(alloc, usage, words),
        Subcommand::First => comparing::first_answer(alloc, usage, words),
        Subcommand::Last => comparing::last_answer(alloc, usage, words),
        Subcommand::Repeat => making::repeat_answer(alloc, usage, words),
        Subcommand::Map => making::map_answer(alloc, usage, words),
        Subcommand::Tolower => parts::lower_answer(alloc, usage, words),
        Subcommand::Toupper => parts::upper_answer(alloc, usage, words),
        Subcommand::Trim => parts::trim_answer(alloc, Side::Both, usage, words),
        Subcommand::Trimleft => parts::trim_answer(alloc, Side::Left, usage, words),
        Subcommand::Trimright => parts::trim_answer(alloc, Side::Right, usage, words),
    }
}
