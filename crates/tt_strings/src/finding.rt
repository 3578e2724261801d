//! Where characters stand in a text.
ghost use Rattle.std.specs.Prelude.{◌≡◌, ◌+◌, ◌<◌, ◌≤◌, length, drop, take};
ghost use Rattle.memchr.specs.Find.{FindsNeedle, FindsLastNeedle, OccursAt};
ghost use Rattle.tt_text.specs.Characters.{characters};
ghost use Rattle.tt_strings.specs.inside.Ends.{is_whole};
ghost use Rattle.tt_strings.specs.Finding.{IsFirstPlace, IsLastPlace};
ghost use Rattle.tt_strings.specs.inside.Whole.{IsFirstWhole, IsLastWhole, IsWholeAt};

use crate::mapping::goes_on;
use memchr::memmem;
use tt_text::char_count;

/// The first place at which the needle's characters stand in the text (string(n), string first).
///
/// A place is the count of characters before it. `None` where they stand nowhere, as no characters do.
#[tactic(auto, using(crate::proofs::Searches::first_of_nothing, crate::proofs::Searches::first_nowhere, crate::proofs::Searches::first_somewhere, crate::proofs::Searches::start_within))]
pub fn first_place(needle: &[u8], text: &[u8]) -> Option<usize>
    ensures { IsFirstPlace (characters needle.now) (characters text.now) result }
{
    let [_, ..] = needle else {
        return None;
    };
    match first_whole(needle, text) {
        Some(start) => Some(char_count(&text[..start])),
        None => None,
    }
}

/// The last place at which the needle's characters stand in the text (string(n), string last).
///
/// A place is the count of characters before it. `None` where they stand nowhere, as no characters do.
#[tactic(auto, using(crate::proofs::Searches::last_of_nothing, crate::proofs::Searches::last_nowhere, crate::proofs::Searches::last_somewhere, crate::proofs::Searches::start_within))]
pub fn last_place(needle: &[u8], text: &[u8]) -> Option<usize>
    ensures { IsLastPlace (characters needle.now) (characters text.now) result }
{
    let [_, ..] = needle else {
        return None;
    };
    match last_whole(needle, text) {
        Some(start) => Some(char_count(&text[..start])),
        None => None,
    }
}

// Where the needle's bytes first stand as whole characters.
fn first_whole(needle: &[u8], text: &[u8]) -> Option<usize>
    requires some { 0 < length needle.now }
    ensures { IsFirstWhole needle.now text.now result }
{
    let finder = memmem::Finder::new(needle);
    let mut from = 0;
    'starts: while let Some(at) = finder.find(&text[from..]) {
        let start = from + at;
        if is_whole(text, start, start + needle.len()) {
            return Some(start);
        }
        from = start + 1;
    }
    None
}

// Where the needle's bytes last stand as whole characters.
fn last_whole(needle: &[u8], text: &[u8]) -> Option<usize>
    requires some { 0 < length needle.now }
    ensures { IsLastWhole needle.now text.now result }
{
    let finder = memmem::FinderRev::new(needle);
    let mut end = text.len();
    'starts: while let Some(start) = finder.rfind(&text[..end]) {
        if is_whole(text, start, start + needle.len()) {
            return Some(start);
        }
        end = start + needle.len() - 1;
    }
    None
}

// Whether characters begin at both places.
fn is_whole(text: &[u8], start: usize, end: usize) -> bool
    requires ordered { start ≤ end }
    requires within { end ≤ length text.now }
    ensures { result ≡ is_whole text.now start end }
{
    !goes_on(&text[end..]) && (start == 0 || !goes_on(&text[start..]))
}
