ghost use Rattle.std.specs.Prelude.{◌≡◌, IfOk, reverse};

use std::alloc::Global;
use tt_text::{NoMemory, Text, Texts};

/// Copies of a list's items in reverse order (lreverse(n)).
///
/// `NoMemory` if memory is refused.
pub fn reversed(alloc: Global, items: &[Text]) -> Result<Texts, NoMemory>
    ensures reversed { IfOk result (λ reversed. reversed ≡ reverse items.now) }
{
    let mut copies = Texts::from_copies(alloc, items)?.into_vec();
    copies.reverse();
    Ok(Texts::from(copies))
}
