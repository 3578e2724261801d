//! What format(n) answers to words.
ghost use Rattle.std.specs.Prelude.{◌≡◌, IfOk};
ghost use Rattle.tt_pure.specs.Formatting as answers;
ghost use Rattle.tt_pure.specs.Usages.{wrong_number};

use crate::usages::wrong_number;
use std::alloc::Global;
use tt_format::Formatted;
use tt_lists::ListAnswer;
use tt_text::{NoMemory, Text};

pub(crate) fn format(alloc: Global, usage: &[u8], words: &[Text]) -> Result<ListAnswer, NoMemory>
    ensures { IfOk result (answers.IsFormatAnswer (wrong_number usage.now) words.now) }
{
    let [template, values @ ..] = words else {
        return wrong_number(alloc, usage);
    };
    let came = tt_format::format(alloc, template.as_bytes(), values)?;
    Ok(formatted_answer(came))
}

fn formatted_answer(came: Formatted) -> ListAnswer
    ensures { result ≡ answers.formatted_answer came }
{
    match came {
        Formatted::Made(text) => ListAnswer::Made(text),
        Formatted::Bad(message) => ListAnswer::Bad(message),
    }
}
