ghost use Rattle.std.specs.Prelude.{◌≡◌, ◌++◌, ◌∷◌, [], IfOk, OnOk, map};
ghost use Rattle.std.specs.List.{filter};
ghost use Rattle.tt_list_commands.specs.Concatenating.{concatenation, has_some};
ghost use Rattle.tt_number.specs.Numerals.{trimmed};

use crate::joining::join;
use std::alloc::Global;
use tt_number::trimmed;
use tt_text::{NoMemory, Text, Texts};

/// The texts without the white space around them, and without those that are empty then, with a space between each two
/// (concat(n)). White space goes after a backslash too.
///
/// `NoMemory` if memory is refused.
pub fn concat(alloc: Global, texts: &[Text]) -> Result<Text, NoMemory>
    ensures text { IfOk result (λ text. text ≡ concatenation texts.now) }
{
    let kept = kept_texts(alloc, texts)?;
    let text = join(alloc, b" ", kept.as_slice())?;
    Ok(text)
}

fn kept_texts(alloc: Global, texts: &[Text]) -> Result<Texts, NoMemory>
    ensures { IfOk result (λ kept. kept ≡ filter has_some (map trimmed texts.now)) }
{
    let mut kept = Texts::new(alloc);
    for text in texts {
        keep(alloc, &mut kept, trimmed(text.as_bytes()))?;
    }
    Ok(kept)
}

// Puts a text at the end, if there is something in it.
#[tactic(auto, using(crate::proofs::Keeping::is_kept, crate::proofs::Keeping::is_left_out))]
fn keep(alloc: Global, kept: &mut Texts, text: &[u8]) -> Result<(), NoMemory>
    ensures { OnOk result (kept.new ≡ kept.old ++ filter has_some (text.now ∷ [])) }
{
    if !text.is_empty() {
        kept.push(Text::from_bytes(alloc, text)?)?;
    }
    Ok(())
}
