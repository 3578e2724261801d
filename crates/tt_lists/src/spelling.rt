ghost use Rattle.std.specs.Prelude.{◌≡◌, ◌++◌, length, IfOk, OnOk};
ghost use Rattle.std.specs.List.{list_any, flat_map};
ghost use Rattle.tt_text.specs.Braces.{is_balanced};
ghost use Rattle.tt_lists.specs.ListText.{IsListText};
ghost use Rattle.tt_lists.specs.Reading.{split_of};
ghost use Rattle.tt_lists.specs.Spelling.{is_comment_sign, joins_lines, is_substituted, wants_braces};
ghost use Rattle.tt_lists.specs.Spelling.{wants_braces_first, fits_braces, style_of, escape, escape_first};
ghost use Rattle.tt_lists.specs.Spelling.{escape_bare, with_escapes, item_in_style, spelling, later_item, list_of};

use crate::items::Split;
use std::alloc::Global;
use tt_text::{NoMemory, Text, is_balanced, is_white_space};

/// Where an item stands in its list.
#[derive(Clone, Copy)]
pub(crate) enum Place {
    First,
    Later,
}

/// How an item is written.
#[derive(Clone, Copy)]
pub(crate) enum Style {
    Empty,
    Escaped,
    Braced,
    Bare,
}

/// The canonical spelling of an item that is the first of a list, by list(n).
///
/// `NoMemory` if the memory for it is refused.
pub fn element(alloc: Global, item: &[u8]) -> Result<Text, NoMemory>
    ensures spelled { IfOk result (λ text. text ≡ spelling Place.First item.now) }
{
    let mut text = Text::new(alloc);
    push_spelling(&mut text, Place::First, item)?;
    Ok(text)
}

/// The canonical text of a list of these items, by list(n): their spellings with a space between them.
/// `split` of it gives the items again.
///
/// `NoMemory` if the memory for it is refused.
pub fn join_list(alloc: Global, items: &[Text]) -> Result<Text, NoMemory>
    ensures canonical { IfOk result (λ text. text ≡ list_of items.now) }
    ensures lists { IfOk result (λ text. IsListText text items.now) }
    ensures splits_back { IfOk result (λ text. split_of text ≡ Split.Items items.now) }
{
    let text = canonical(alloc, items)?;
    Ok(text)
}

fn canonical(alloc: Global, items: &[Text]) -> Result<Text, NoMemory>
    ensures { IfOk result (λ text. text ≡ list_of items.now) }
{
    let mut text = Text::new(alloc);
    if let Some((first, later)) = items.split_first() {
        push_spelling(&mut text, Place::First, first.as_bytes())?;
        push_later_items(&mut text, later)?;
    }
    Ok(text)
}

/// Puts items after the first one of a list's text, each with the space before it (list(n)).
///
/// `NoMemory` if the memory for them is refused.
pub fn push_later_items(text: &mut Text, items: &[Text]) -> Result<(), NoMemory>
    ensures pushed { OnOk result (text.new ≡ text.old ++ flat_map later_item items.now) }
{
    for item in items {
        push_later_item(text, item.as_bytes())?;
    }
    Ok(())
}

pub(crate) fn push_later_item(text: &mut Text, item: &[u8]) -> Result<(), NoMemory>
    ensures { OnOk result (text.new ≡ text.old ++ later_item item.now) }
{
    text.push_bytes(b" ")?;
    push_spelling(text, Place::Later, item)?;
    Ok(())
}

#[tactic(auto, unfolding(crate::specs::Spelling::spelling))]
pub(crate) fn push_spelling(text: &mut Text, place: Place, item: &[u8]) -> Result<(), NoMemory>
    ensures { OnOk result (text.new ≡ text.old ++ spelling place item.now) }
{
    match style_of(place, item) {
        Style::Empty => text.push_bytes(b"{}"),
        Style::Escaped => push_escaped(text, place, item),
        Style::Braced => push_braced(text, item),
        Style::Bare => push_bare(text, item),
    }
}

fn push_braced(text: &mut Text, item: &[u8]) -> Result<(), NoMemory>
    ensures { OnOk result (text.new ≡ text.old ++ item_in_style Style.Braced Place.First item.now) }
{
    text.push_bytes(b"{")?;
    text.push_bytes(item)?;
    text.push_bytes(b"}")?;
    Ok(())
}

fn push_escaped(text: &mut Text, place: Place, item: &[u8]) -> Result<(), NoMemory>
    ensures { OnOk result (text.new ≡ text.old ++ with_escapes place item.now) }
{
    let Some((first, rest)) = item.split_first() else {
        return Ok(());
    };
    push_escape_first(text, place, *first)?;
    push_escapes(text, rest)?;
    Ok(())
}

fn push_escape_first(text: &mut Text, place: Place, b: u8) -> Result<(), NoMemory>
    ensures { OnOk result (text.new ≡ text.old ++ escape_first place b) }
{
    if is_comment_sign(place, b) {
        text.push_bytes(&[b'\\', b])
    } else {
        push_escape(text, b)
    }
}

fn push_escapes(text: &mut Text, item: &[u8]) -> Result<(), NoMemory>
    ensures { OnOk result (text.new ≡ text.old ++ flat_map escape item.now) }
{
    for b in item {
        push_escape(text, *b)?;
    }
    Ok(())
}

fn push_escape(text: &mut Text, b: u8) -> Result<(), NoMemory>
    ensures { OnOk result (text.new ≡ text.old ++ escape b) }
{
    match b {
        b'\t' => text.push_bytes(b"\\t"),
        b'\n' => text.push_bytes(b"\\n"),
        11 => text.push_bytes(b"\\v"),
        12 => text.push_bytes(b"\\f"),
        b'\r' => text.push_bytes(b"\\r"),
        b' ' | b';' | b'$' | b'[' | b'\\' | b']' | b'{' | b'}' | b'"' => text.push_bytes(&[
            b'\\', b,
        ]),
        _ => text.push_bytes(&[b]),
    }
}

fn push_bare(text: &mut Text, item: &[u8]) -> Result<(), NoMemory>
    ensures { OnOk result (text.new ≡ text.old ++ flat_map escape_bare item.now) }
{
    for b in item {
        if *b == b']' || *b == b'"' {
            text.push_bytes(&[b'\\', *b])?;
        } else {
            text.push_bytes(&[*b])?;
        }
    }
    Ok(())
}

fn style_of(place: Place, item: &[u8]) -> Style
    ensures { result ≡ style_of place item.now }
{
    let Some(first) = item.first() else {
        return Style::Empty;
    };
    if !fits_braces(item) {
        Style::Escaped
    } else if wants_braces_first(place, *first) || any_wants_braces(item) {
        Style::Braced
    } else {
        Style::Bare
    }
}

fn fits_braces(item: &[u8]) -> bool
    ensures { result ≡ fits_braces item.now }
{
    is_balanced(item) && !joins_lines(item)
}

fn joins_lines(item: &[u8]) -> bool
    ensures { result ≡ joins_lines item.now }
{
    let mut rest = item;
    while let [b, next, after @ ..] = rest {
        if *b != b'\\' {
            rest = &rest[1..];
        } else if *next == b'\n' {
            return true;
        } else {
            rest = after;
        }
    }
    false
}

fn is_comment_sign(place: Place, b: u8) -> bool
    ensures { result ≡ is_comment_sign place b }
{
    match place {
        Place::First => b == b'#',
        Place::Later => false,
    }
}

fn wants_braces_first(place: Place, b: u8) -> bool
    ensures { result ≡ wants_braces_first place b }
{
    b == b'{' || b == b'"' || is_comment_sign(place, b)
}

fn any_wants_braces(item: &[u8]) -> bool
    ensures { result ≡ list_any wants_braces item.now }
{
    item.iter().any(|&b| is_white_space(b) || b == b';' || b == b'$' || b == b'[' || b == b'\\')
}
