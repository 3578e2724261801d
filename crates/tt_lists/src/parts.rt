ghost use Rattle.std.specs.Prelude.{◌≡◌, ◌++◌, IfOk};
ghost use Rattle.tt_lists.specs.Parts.{after, before, from, item_in, range, up_to, with_items, with_replaced};

use std::alloc::Global;
use tt_text::{NoMemory, Text, Texts};

/// A copy of the item at a place, which is empty outside the list.
pub(crate) fn item_in(alloc: Global, items: &[Text], place: i128) -> Result<Text, NoMemory>
    ensures { IfOk result (λ item. item ≡ item_in items.now place) }
{
    match usize::try_from(place) {
        Ok(place) if place < items.len() => items[place].copy(),
        _ => Ok(Text::new(alloc)),
    }
}

fn before(items: &[Text], place: i128) -> &[Text]
    ensures { result.now ≡ before items.now place }
{
    &items[..place.clamp(0, items.len() as i128) as usize]
}

fn from(items: &[Text], place: i128) -> &[Text]
    ensures { result.now ≡ from items.now place }
{
    &items[place.clamp(0, items.len() as i128) as usize..]
}

fn up_to(items: &[Text], place: i128) -> &[Text]
    ensures { result.now ≡ up_to items.now place }
{
    &items[..(place.clamp(-1, items.len() as i128 - 1) + 1) as usize]
}

fn after(items: &[Text], place: i128) -> &[Text]
    ensures { result.now ≡ after items.now place }
{
    if place < 0 {
        return items;
    }
    match from(items, place) {
        [_, later @ ..] => later,
        [] => &[],
    }
}

/// The items from a first place up to a last one.
pub(crate) fn range(items: &[Text], first: i128, last: i128) -> &[Text]
    ensures { result.now ≡ range items.now first last }
{
    from(up_to(items, last), first)
}

/// The items with others put before the item at a place.
pub(crate) fn with_items(
    alloc: Global,
    items: &[Text],
    place: i128,
    others: &[Text],
) -> Result<Texts, NoMemory>
    ensures { IfOk result (λ all. all ≡ with_items items.now place others.now) }
{
    joined_parts(alloc, before(items, place), others, from(items, place))
}

/// The items with others in place of those from a first place up to a last one.
pub(crate) fn with_replaced(
    alloc: Global,
    items: &[Text],
    first: i128,
    last: i128,
    others: &[Text],
) -> Result<Texts, NoMemory>
    ensures { IfOk result (λ all. all ≡ with_replaced items.now first last others.now) }
{
    let kept = if last < first {
        from(items, first)
    } else {
        after(items, last)
    };
    joined_parts(alloc, before(items, first), others, kept)
}

fn joined_parts(
    alloc: Global,
    front: &[Text],
    middle: &[Text],
    back: &[Text],
) -> Result<Texts, NoMemory>
    ensures { IfOk result (λ all. all ≡ front.now ++ (middle.now ++ back.now)) }
{
    let count = front
        .len()
        .saturating_add(middle.len())
        .saturating_add(back.len());
    let mut all = Texts::with_capacity(alloc, count)?;
    all.push_copies(front)?;
    all.push_copies(middle)?;
    all.push_copies(back)?;
    Ok(all)
}
