ghost use Rattle.std.specs.Prelude.{◌≡◌, ◌++◌, ◌∷◌, [], ℕ, List, IfOk, OnOk, OnErr};
ghost use Rattle.tt_lists.specs.Growing.{piece_of, with_last};
ghost use Rattle.tt_lists.specs.Spelling.{list_of};

use crate::spelling::{Place, push_later_item, push_spelling};
use std::alloc::Global;
use tt_text::{NoMemory, Text};

/// Puts one item more at the end of a list's text (lappend(n)), in time of that item.
///
/// If the text is a list's canonical one, it is then that of the longer list.
///
/// `NoMemory` if the memory for it is refused; then the text is as it was.
#[tactic(auto, using(crate::proofs::Longer::grown))]
pub fn push_item(alloc: Global, text: &mut Text, item: &[u8]) -> Result<(), NoMemory>
    ensures pushed { OnOk result (text.new ≡ with_last text.old item.now) }
    ensures longer { OnOk result ((items : List (List ℕ)) →
        text.old ≡ list_of items → text.new ≡ list_of (items ++ item.now ∷ [])) }
    ensures unchanged { OnErr result (text.new ≡ text.old) }
{
    let piece = piece_of(alloc, text, item)?;
    text.push_bytes(piece.as_bytes())?;
    Ok(())
}

// What the item adds to the text.
fn piece_of(alloc: Global, text: &Text, item: &[u8]) -> Result<Text, NoMemory>
    ensures { IfOk result (λ piece. piece ≡ piece_of text.now item.now) }
{
    let mut piece = Text::new(alloc);
    if text.is_empty() {
        push_spelling(&mut piece, Place::First, item)?;
    } else {
        push_later_item(&mut piece, item)?;
    }
    Ok(piece)
}
