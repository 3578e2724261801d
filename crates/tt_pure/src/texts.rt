//! What the commands that make texts of lists, or lists of texts, answer to words, by their usages.
ghost use Rattle.std.specs.Prelude.{◌≡◌, IfOk};
ghost use Rattle.tt_pure.specs.Texts as answers;
ghost use Rattle.tt_pure.specs.Usages.{wrong_number};

use crate::made::{listed, refuse};
use std::alloc::Global;
use tt_lists::ListAnswer;
use tt_strings::{WHITE_SPACE, split_at};
use tt_text::{NoMemory, Text};
use tt_value::{Made, Value};

pub(crate) fn concat(alloc: Global, words: &[Text]) -> Result<ListAnswer, NoMemory>
    ensures { IfOk result (λ answer. answer ≡ answers.concat words.now) }
{
    let text = tt_list_commands::concat(alloc, words)?;
    Ok(ListAnswer::Made(text))
}

pub(crate) fn split(alloc: Global, usage: &[u8], words: &[Value]) -> Result<Made, NoMemory>
    ensures { IfOk result (λ made. answers.IsSplitAnswer (wrong_number usage.now) words.now made) }
{
    match words {
        [text] => fields(alloc, text, WHITE_SPACE),
        [text, splitting] => {
            let splitting = splitting.to_text(alloc)?;
            fields(alloc, text, splitting.as_bytes())
        }
        _ => refuse(alloc, usage),
    }
}

fn fields(alloc: Global, text: &Value, splitting: &[u8]) -> Result<Made, NoMemory>
    ensures { IfOk result (λ made. answers.IsSplitAt text.now splitting.now made) }
{
    let text = text.to_text(alloc)?;
    let fields = split_at(alloc, text.as_bytes(), splitting)?;
    listed(Ok(fields))
}
