ghost use Rattle.std.specs.Prelude.{◌≡◌, ◌≤◌, ◌<◌, ◌^◌, ◌-◌, min, length, position, IfSome};
ghost use Rattle.std.specs.Option.{option_map};
ghost use Rattle.tt_number.specs.Numerals.{trimmed, without_white_back, whole_of, is_minus_first, unsigned_part};
ghost use Rattle.tt_number.specs.Numerals.{number_of, base_and_digits, is_float, is_scaled, is_pointed};
ghost use Rattle.tt_number.specs.Numerals.{is_exponent_mark, is_point, is_numeral, all_digits, signed_number};

use thiserror::Error;
use tt_text::{is_white_space, without_white_front};

/// Why a text is read as no whole number.
#[derive(Clone, Copy, Debug, PartialEq, Eq, Error)]
pub enum NumberFault {
    /// It spells no number.
    #[error("not a whole number")]
    NotWhole,
    /// It spells a whole number that does not lie in signed 64 bits.
    #[error("whole number of more than 64 bits")]
    TooLarge,
    /// It spells a floating-point number.
    #[error("floating-point number")]
    Float,
}

/// Reads a text as a whole number, by expr(n), OPERANDS.
///
/// White space around is ignored. After an optional sign come `0x`, `0o` or `0b`, in either case, with
/// digits of base 16, 8 or 2; or `0` with octal digits; or decimal digits.
///
/// - `TooLarge` if such a number does not lie in signed 64 bits.
/// - `Float` if the text is an optional sign and digits with a point, an exponent or both.
/// - `NotWhole` for every other text, `08` among them.
#[tactic(auto, unfolding(crate::specs::Numerals::whole_of))]
pub fn read_whole(text: &[u8]) -> Result<i64, NumberFault>
    ensures answer { result ≡ whole_of text.now }
{
    let text = trimmed(text);
    let negative = is_minus_first(text);
    let unsigned = unsigned_part(text);
    match number_of(unsigned) {
        Some(size) => cut(negative, size),
        None if is_float(unsigned) => Err(NumberFault::Float),
        None => Err(NumberFault::NotWhole),
    }
}

#[tactic(auto, using(crate::proofs::Trims::white_end, crate::proofs::Trims::kept_end))]
fn without_white_back(mut text: &[u8]) -> &[u8]
    ensures { result.now ≡ without_white_back text.now }
{
    while let [rest @ .., last] = text {
        if !is_white_space(*last) {
            break;
        }
        text = rest;
    }
    text
}

/// A text without the white space at its front and at its back (expr(n), OPERANDS; concat(n)).
#[tactic(auto, unfolding(crate::specs::Numerals::trimmed))]
pub fn trimmed(text: &[u8]) -> &[u8]
    ensures { result.now ≡ trimmed text.now }
{
    without_white_back(without_white_front(text))
}

fn is_minus_first(text: &[u8]) -> bool
    ensures { result ≡ is_minus_first text.now }
{
    matches!(text, [b'-', ..])
}

fn unsigned_part(text: &[u8]) -> &[u8]
    ensures { result.now ≡ unsigned_part text.now }
{
    match text {
        [b'+' | b'-', rest @ ..] => rest,
        _ => text,
    }
}

// A number past 64 bits is answered as the greatest one that fits them.
fn number_of(unsigned: &[u8]) -> Option<u64>
    ensures { result ≡ option_map (λ n. min n (2 ^ 64 - 1)) (number_of (base_and_digits unsigned.now)) }
{
    match unsigned {
        [b'0', b'x' | b'X', digits @ ..] => digits_of(16, digits),
        [b'0', b'o' | b'O', digits @ ..] => digits_of(8, digits),
        [b'0', b'b' | b'B', digits @ ..] => digits_of(2, digits),
        [b'0', digits @ ..] if !digits.is_empty() => digits_of(8, digits),
        digits => digits_of(10, digits),
    }
}

/// The number that digits of this base write, or the greatest `u64` if it is past that (expr(n), OPERANDS).
///
/// `None` if there are none or one is no digit of the base.
pub fn digits_of(base: u32, digits: &[u8]) -> Option<u64>
    requires least { 2 ≤ base }
    requires most { base ≤ 16 }
    ensures { result ≡ option_map (λ n. min n (2 ^ 64 - 1)) (number_of (base, digits.now)) }
{
    if digits.is_empty() {
        return None;
    }
    let mut number: u64 = 0;
    for &digit in digits {
        let value = char::from(digit).to_digit(base)?;
        number = number
            .saturating_mul(u64::from(base))
            .saturating_add(u64::from(value));
    }
    Some(number)
}

fn cut(negative: bool, size: u64) -> Result<i64, NumberFault>
    ensures { result ≡ signed_number negative size }
{
    let number = if negative {
        -i128::from(size)
    } else {
        i128::from(size)
    };
    i64::try_from(number).map_err(|_| NumberFault::TooLarge)
}

#[tactic(auto, unfolding(crate::specs::Numerals::is_float))]
fn is_float(text: &[u8]) -> bool
    ensures { result ≡ is_float text.now }
{
    match exponent_place(text) {
        Some(at) => is_scaled(&text[..at], &text[at + 1..]),
        None => is_pointed(text),
    }
}

fn exponent_place(text: &[u8]) -> Option<usize>
    ensures place { result ≡ position is_exponent_mark text.now }
    ensures within { IfSome result (λ at. at < length text.now) }
{
    text.iter().position(|&b| b == b'e' || b == b'E')
}

fn is_scaled(front: &[u8], exponent: &[u8]) -> bool
    ensures { result ≡ is_scaled front.now exponent.now }
{
    (is_numeral(front) || is_pointed(front)) && is_numeral(unsigned_part(exponent))
}

fn is_pointed(text: &[u8]) -> bool
    ensures { result ≡ is_pointed text.now }
{
    match point_place(text) {
        Some(at) => text.len() > 1 && all_digits(&text[..at]) && all_digits(&text[at + 1..]),
        None => false,
    }
}

fn point_place(text: &[u8]) -> Option<usize>
    ensures place { result ≡ position is_point text.now }
    ensures within { IfSome result (λ at. at < length text.now) }
{
    text.iter().position(|&b| b == b'.')
}

fn is_numeral(text: &[u8]) -> bool
    ensures { result ≡ is_numeral 10 text.now }
{
    !text.is_empty() && all_digits(text)
}

fn all_digits(text: &[u8]) -> bool
    ensures { result ≡ all_digits 10 text.now }
{
    text.iter().all(|&b| char::from(b).is_digit(10))
}
