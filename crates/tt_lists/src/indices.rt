ghost use Rattle.std.specs.Prelude.{if◌then◌else◌, ◌≡◌, IsTrue, ◌<◌, ◌≤◌, ◌^◌, ◌+ℤ◌, pos, length, take, take_while};
ghost use Rattle.std.specs.Prelude.{drop};
ghost use Rattle.std.specs.List.{prefix_len};
ghost use Rattle.std.specs.Str.Parse.{digits_value};
ghost use Rattle.tt_lists.specs.Indices.{index_of, is_end_first, is_sign_first, from_first_of, offset_of, number_of};
ghost use Rattle.tt_lists.specs.Indices.{signed_with, place_of, sum_of, is_decimal, fits};
ghost use Rattle.tt_lists.specs.declared.place.Index.TheVariants.{At, FromEnd};

use crate::place::Index;

/// Reads a text as an index, by lindex(n): `N`, `+N`, `-N`, `M+N`, `M-N`, `end`, `end+N` or `end-N` of
/// decimal digits.
///
/// None for every other text, and if a number is 2^64 or more or the value does not lie in signed 64
/// bits.
#[tactic(auto, unfolding(crate::specs::Indices::index_of))]
pub fn index(text: &[u8]) -> Option<Index>
    ensures answer { result ≡ index_of text.now }
{
    if is_end_first(text) {
        from_end(&text[3..])
    } else if is_sign_first(text) {
        signed(text)
    } else {
        from_first(text)
    }
}

fn is_end_first(text: &[u8]) -> bool
    ensures value { result ≡ is_end_first text.now }
    ensures within { IsTrue result → 3 ≤ length text.now }
{
    matches!(text, [b'e', b'n', b'd', ..])
}

fn is_sign_first(text: &[u8]) -> bool
    ensures { result ≡ is_sign_first text.now }
{
    matches!(text, [b'+' | b'-', ..])
}

fn from_end(offset: &[u8]) -> Option<Index>
    ensures { result ≡ place_of FromEnd (offset_of offset.now) }
{
    fitted(offset_of(offset)?).map(Index::FromEnd)
}

fn signed(text: &[u8]) -> Option<Index>
    ensures { result ≡ place_of At (offset_of text.now) }
{
    fitted(offset_of(text)?).map(Index::At)
}

fn from_first(text: &[u8]) -> Option<Index>
    ensures { result ≡ from_first_of text.now }
{
    let count = digit_count(text);
    let first = number_of(&text[..count])?;
    let offset = offset_of(&text[count..])?;
    fitted(i128::from(first) + offset).map(Index::At)
}

fn digit_count(text: &[u8]) -> usize
    ensures { result ≡ prefix_len is_decimal text.now }
{
    text.iter()
        .take_while(|b| char::from(**b).is_digit(10))
        .count()
}

fn offset_of(text: &[u8]) -> Option<i128>
    ensures { result ≡ offset_of text.now }
{
    match text {
        [] => Some(0),
        [b'+', digits @ ..] => number_of(digits).map(i128::from),
        [b'-', digits @ ..] => number_of(digits).map(|number| -i128::from(number)),
        _ => None,
    }
}

fn fitted(number: i128) -> Option<i64>
    ensures { result ≡ (if fits number then Some number else None) }
{
    i64::try_from(number).ok()
}

fn number_of(digits: &[u8]) -> Option<u64>
    ensures { result ≡ number_of digits.now }
{
    if digits.is_empty() {
        return None;
    }
    let mut number: u64 = 0;
    for &digit in digits {
        let value = char::from(digit).to_digit(10)?;
        number = number.checked_mul(10)?.checked_add(u64::from(value))?;
    }
    Some(number)
}
