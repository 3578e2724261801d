//! Field specifiers of a template.
ghost use Rattle.std.specs.Prelude.{◌≡◌, ◌≤◌, ◌-◌, ◌^◌, min, true, length};
ghost use Rattle.std.specs.Option.{option_map};
ghost use Rattle.tt_number.specs.Numerals.{all_digits, digit_sum};
ghost use Rattle.tt_format.specs.inside.Reading.{IsRead, at_most_greatest};
ghost use Rattle.tt_format.specs.Specifiers.{after_digits, after_most, after_size, after_width, decimal_digits};
ghost use Rattle.tt_format.specs.Specifiers.{flags, is_flag, is_size, most, specifier, width};

use tt_number::digits_of;

/// A field specifier, without its `%` and its letter (format(n)). A number past `u64` counts as the greatest one.
#[derive(Clone, Copy, Debug)]
pub(crate) struct Specifier<'a> {
    pub flags: &'a [u8],
    /// The least width; `None` if a value gives it.
    pub width: Option<u64>,
    /// How many characters are printed at most.
    pub most: Option<u64>,
    /// The template from the letter on.
    pub rest: &'a [u8],
}

/// The specifier after a `%`.
pub(crate) fn read_specifier(text: &[u8]) -> Specifier<'_>
    ensures read { IsRead result (specifier text.now) }
    ensures no_longer { length result.rest.now ≤ length text.now }
{
    let (flags, sized) = text.split_at(flag_count(text));
    let (width, limited) = read_width(sized);
    let (most, letter) = read_most(limited);
    Specifier {
        flags,
        width,
        most,
        rest: without_size(letter),
    }
}

fn flag_count(text: &[u8]) -> usize
    ensures count { result ≡ length (flags text.now) }
    ensures within { result ≤ length text.now }
{
    text.iter().take_while(|b| is_flag(**b)).count()
}

fn is_flag(byte: u8) -> bool
    ensures { result ≡ is_flag byte }
{
    matches!(byte, b'-' | b'0' | b'+' | b' ')
}

// A width, and the text after it.
fn read_width(text: &[u8]) -> (Option<u64>, &[u8])
    ensures width { result.0 ≡ option_map at_most_greatest (width text.now) }
    ensures after { result.1.now ≡ after_width text.now }
    ensures no_longer { length result.1.now ≤ length text.now }
{
    match text {
        [b'*', after @ ..] => (None, after),
        _ => {
            let (number, after) = read_number(text);
            (Some(number), after)
        }
    }
}

// A limit of characters, and the text after it.
fn read_most(text: &[u8]) -> (Option<u64>, &[u8])
    ensures most { result.0 ≡ option_map at_most_greatest (most text.now) }
    ensures after { result.1.now ≡ after_most text.now }
    ensures no_longer { length result.1.now ≤ length text.now }
{
    match text {
        [b'.', after @ ..] => {
            let (number, after) = read_number(after);
            (Some(number), after)
        }
        _ => (None, text),
    }
}

// The number that the digits at the front write, 0 without any, and the text after them.
#[tactic(auto, using(crate::proofs::DigitRuns::front_is))]
fn read_number(text: &[u8]) -> (u64, &[u8])
    ensures number { result.0 ≡ at_most_greatest (digit_sum 10 (decimal_digits text.now)) }
    ensures after { result.1.now ≡ after_digits text.now }
    ensures no_longer { length result.1.now ≤ length text.now }
{
    let (digits, after) = text.split_at(digit_count(text));
    (number_of(digits), after)
}

fn digit_count(text: &[u8]) -> usize
    ensures count { result ≡ length (decimal_digits text.now) }
    ensures within { result ≤ length text.now }
{
    text.iter()
        .take_while(|b| char::from(**b).is_digit(10))
        .count()
}

fn number_of(digits: &[u8]) -> u64
    requires { all_digits 10 digits.now ≡ true }
    ensures { result ≡ at_most_greatest (digit_sum 10 digits.now) }
{
    digits_of(10, digits).unwrap_or(0)
}

// The text without an `l` or two at its front.
fn without_size(text: &[u8]) -> &[u8]
    ensures without { result.now ≡ after_size text.now }
    ensures no_longer { length result.now ≤ length text.now }
{
    match text {
        [b'l', b'l', after @ ..] => after,
        [b'l', after @ ..] => after,
        _ => text,
    }
}
