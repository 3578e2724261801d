ghost use Rattle.std.specs.Prelude.{◌≡◌, IfOk};
ghost use Rattle.std.specs.Option.{option_copied};
ghost use Rattle.tt_store.specs.Spots.{spot, spot_of, full_name};

use std::alloc::Global;
use tt_script::{global_name, split_name};
use tt_text::{NoMemory, Text};

/// What a name names: a variable, or with an index an element of an array.
#[derive(Debug, Drop)]
pub(crate) struct Spot {
    /// Whether it is that of the global frame, and not that of the current one.
    pub(crate) global: bool,
    pub(crate) name: Text,
    pub(crate) index: Option<Text>,
}

/// What `$name` and `$name(index)` name.
pub(crate) fn spot_named(alloc: Global, name: &[u8], index: Option<&[u8]>) -> Result<Spot, NoMemory>
    ensures { IfOk result (λ made. made ≡ spot name.now (option_copied index.entry)) }
{
    let index = index_text(alloc, index)?;
    match global_name(name) {
        Some(rest) => Ok(Spot {
            global: true,
            name: Text::from_bytes(alloc, rest)?,
            index,
        }),
        None => Ok(Spot {
            global: false,
            name: Text::from_bytes(alloc, name)?,
            index,
        }),
    }
}

fn index_text(alloc: Global, index: Option<&[u8]>) -> Result<Option<Text>, NoMemory>
    ensures { IfOk result (λ text. text ≡ option_copied index.entry) }
{
    match index {
        Some(index) => Ok(Some(Text::from_bytes(alloc, index)?)),
        None => Ok(None),
    }
}

/// What a command's word names.
pub(crate) fn spot_of(alloc: Global, word: &[u8]) -> Result<Spot, NoMemory>
    ensures { IfOk result (λ made. made ≡ spot_of word.now) }
{
    match split_name(word) {
        Some((name, index)) => spot_named(alloc, name, Some(index)),
        None => spot_named(alloc, word, None),
    }
}

/// A name with its index, if it has one, as errors show it (set(n)): `a(b)`.
///
/// `NoMemory` if memory is refused.
pub fn full_name(alloc: Global, name: &[u8], index: Option<&[u8]>) -> Result<Text, NoMemory>
    ensures { IfOk result (λ text. text ≡ full_name name.now (option_copied index.entry)) }
{
    let mut text = Text::from_bytes(alloc, name)?;
    if let Some(index) = index {
        text.push_bytes(b"(")?;
        text.push_bytes(index)?;
        text.push_bytes(b")")?;
    }
    Ok(text)
}
