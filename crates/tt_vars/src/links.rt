ghost use Rattle.std.specs.Prelude.{◌≡◌, ◌<◌, length, IfOk, IfSome};
ghost use Rattle.std.specs.Option.{option_copied, option_map};
ghost use Rattle.tt_vars.specs.Links.{StandsFor, frame_at, is_of, is_same, is_variable, missing, onward};
ghost use Rattle.tt_vars.specs.inside.Ending.{LinksEnd};
ghost use Rattle.tt_vars.specs.inside.Found.{place_at};

use crate::VarFault;
use crate::frame::Frame;
use crate::variable::Place;
use tt_text::{NoMemory, Text};

/// A name in a frame, with an index or without.
#[derive(Clone, Copy)]
pub(crate) struct Spot<'a> {
    pub(crate) frame: u64,
    pub(crate) name: &'a Text,
    pub(crate) index: Option<&'a Text>,
    /// The place in the frame at which the name is looked for first. It has no meaning: another one costs time alone.
    pub(crate) hint: usize,
}

/// What a name stands for after its links (upvar(n)); None if it would be an element of an element. Its hint is the
/// place at which the name was found.
pub(crate) fn follow<'a>(frames: &'a [Frame], spot: Spot<'a>) -> Option<Spot<'a>>
    requires ends { LinksEnd frames.now }
    requires there { spot.frame < length frames.now }
    ensures stands { StandsFor frames.now (place_at spot.entry) (option_map place_at result) }
    ensures there { IfSome result (λ spot. spot.frame < length frames.now) }
{
    let mut here = spot;
    let mut hint = spot.hint;
    while let Some(to) = frame_in(frames, here.frame).link(here.name, &mut hint) {
        let Some(next) = onward(to, here.index) else {
            return None;
        };
        here = next;
    }
    Some(Spot { hint, ..here })
}

/// The frame with a number.
pub(crate) fn frame_in(frames: &[Frame], number: u64) -> &Frame
    requires { number < length frames.now }
    ensures { result.now ≡ frame_at frames.now number }
{
    &frames[number as usize]
}

// Where a link leads from a name with this index, or without.
fn onward<'a>(to: &'a Option<Place>, index: Option<&'a Text>) -> Option<Spot<'a>>
    ensures { option_map place_at result ≡ onward to.now (option_copied index.entry) }
{
    let to = to.as_ref()?;
    let index = match (&to.index, index) {
        (None, index) => index,
        (Some(element), None) => Some(element),
        (Some(_), Some(_)) => return None,
    };
    Some(Spot {
        frame: to.frame,
        name: &to.name,
        index,
        hint: 0,
    })
}

/// A place as a value of its own.
///
/// `NoMemory` if memory for it is refused.
pub(crate) fn owned(spot: Option<Spot>) -> Result<Option<Place>, NoMemory>
    ensures owned { IfOk result (λ place. place ≡ option_map place_at spot.entry) }
{
    let Some(spot) = spot else {
        return Ok(None);
    };
    let name = spot.name.copy()?;
    let index = owned_index(spot.index)?;
    Ok(Some(Place {
        frame: spot.frame,
        name,
        index,
    }))
}

/// An index as a value of its own.
///
/// `NoMemory` if memory for it is refused.
pub(crate) fn owned_index(index: Option<&Text>) -> Result<Option<Text>, NoMemory>
    ensures owned { IfOk result (λ text. text ≡ option_copied index.entry) }
{
    let Some(index) = index else {
        return Ok(None);
    };
    let index = index.copy()?;
    Ok(Some(index))
}

/// The fault of a missing name; if a link leads to an element, that is what is missing.
pub(crate) fn missing(index: Option<&Text>, element: Option<&Text>) -> VarFault
    ensures { result ≡ missing (option_copied index.entry) (option_copied element.entry) }
{
    match (index, element) {
        (None, Some(_)) => VarFault::NoSuchElement,
        _ => VarFault::NoSuchVariable,
    }
}

/// Whether a place is this variable, or one of its elements.
pub(crate) fn is_of(frame: u64, name: &Text, spot: Option<Spot>) -> bool
    ensures { result ≡ is_of frame name.now (option_map place_at spot.entry) }
{
    match spot {
        None => false,
        Some(spot) => frame == spot.frame && name == spot.name,
    }
}

/// Whether a place is this variable.
pub(crate) fn is_variable(frame: u64, name: &Text, spot: Option<Spot>) -> bool
    ensures { result ≡ is_variable frame name.now (option_map place_at spot.entry) }
{
    match spot {
        None => false,
        Some(spot) => frame == spot.frame && name == spot.name && spot.index.is_none(),
    }
}

/// Whether both places are the same variable or element.
pub(crate) fn is_same(spot: Option<Spot>, other: Option<Spot>) -> bool
    ensures { result ≡ is_same (option_map place_at spot.entry) (option_map place_at other.entry) }
{
    match (spot, other) {
        (Some(spot), Some(other)) => {
            spot.frame == other.frame && spot.name == other.name && spot.index == other.index
        }
        _ => false,
    }
}
