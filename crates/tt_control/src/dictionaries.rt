//! dict(n): loops over dictionaries.
ghost use Rattle.std.specs.Prelude.{◌≡◌, IfOk};
ghost use Rattle.tt_control.specs.Dictionaries as dictionaries;
ghost use Rattle.tt_control.specs.Refusals.{wrong_number};

use crate::Control;
use crate::refusals::wrong_number;
use std::alloc::Global;
use tt_pairs::{Looping, read_loop};
use tt_text::{NoMemory, Text, Texts};

pub(crate) fn dict(alloc: Global, usage: &[u8], words: &[Text]) -> Result<Control, NoMemory>
    ensures { IfOk result (λ control. control ≡ dictionaries.dict (wrong_number usage.now) words.now) }
{
    let [word, words @ ..] = words else {
        return Ok(Control::Other);
    };
    if word.as_bytes() == b"for".as_slice() {
        for_pairs(alloc, usage, words)
    } else {
        Ok(Control::Other)
    }
}

fn for_pairs(alloc: Global, usage: &[u8], words: &[Text]) -> Result<Control, NoMemory>
    ensures { IfOk result (λ control. control ≡ dictionaries.for_pairs (wrong_number usage.now) words.now) }
{
    match words {
        [names, dictionary, body] => {
            let found = read_loop(alloc, names.as_bytes(), dictionary.as_bytes(), body)?;
            looped(alloc, found)
        }
        _ => wrong_number(alloc, usage),
    }
}

fn looped(alloc: Global, found: Result<Looping, Text>) -> Result<Control, NoMemory>
    ensures { IfOk result (λ control. control ≡ dictionaries.pair_loop found) }
{
    match found {
        Ok(looping) => over(alloc, looping),
        Err(message) => Ok(Control::Bad(message)),
    }
}

fn over(alloc: Global, looping: Looping) -> Result<Control, NoMemory>
    ensures { IfOk result (λ control. control ≡ dictionaries.over looping) }
{
    let Looping {
        key,
        value,
        pairs,
        body,
    } = looping;
    let mut names = Texts::new(alloc);
    names.push(key)?;
    names.push(value)?;
    Ok(Control::Foreach {
        names,
        values: pairs,
        body,
    })
}
