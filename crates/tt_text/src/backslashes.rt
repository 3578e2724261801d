ghost use Rattle.std.specs.Prelude.{◌≡◌, ◌+◌, ◌*◌, ◌<◌, ◌≤◌, ◌^◌, drop, length, slice_get, take, take_while};
ghost use Rattle.std.specs.Char.{is_digit};
ghost use Rattle.std.specs.Str.Parse.{AllDigits, digits_value};
ghost use Rattle.tt_text.specs.Backslash.{backslash, hexadecimal_sequence, is_space_or_tab, leading_digits};
ghost use Rattle.tt_text.specs.Backslash.{octal_digits};

use crate::sequence::Backslash;

const BACKSLASH: u8 = b'\\';

/// What the backslash sequence at `at` stands for (Tcl(n), rule 9).
///
/// `\U` stands for `U`, and a code point that is a surrogate for U+FFFD.
pub fn backslash(text: &[u8], at: usize) -> Backslash
    requires { slice_get text.now at ≡ Some BACKSLASH }
    ensures value { take result.len result.bytes ≡ (backslash (drop (at + 1) text.now)).value }
    ensures next { result.next ≡ at + 1 + (backslash (drop (at + 1) text.now)).takes }
    ensures within { result.next ≤ length text.now }
{
    let after = &text[at + 1..];
    let Some((&first, rest)) = after.split_first() else {
        return Backslash::byte(BACKSLASH, at + 1);
    };
    match first {
        b'a' => Backslash::byte(7, at + 2),
        b'b' => Backslash::byte(8, at + 2),
        b'f' => Backslash::byte(12, at + 2),
        b'n' => Backslash::byte(b'\n', at + 2),
        b'r' => Backslash::byte(b'\r', at + 2),
        b't' => Backslash::byte(b'\t', at + 2),
        b'v' => Backslash::byte(11, at + 2),
        b'\n' => Backslash::byte(b' ', at + 2 + blanks(rest)),
        b'x' => hexadecimal(first, rest, 2, at + 2),
        b'u' => hexadecimal(first, rest, 4, at + 2),
        b'0'..=b'7' => {
            let digits = octal_digits(after);
            Backslash::character(number(digits, 8), at + 1 + digits.len())
        }
        _ => Backslash::byte(first, at + 2),
    }
}

// How many spaces and tabs the text begins with.
fn blanks(text: &[u8]) -> usize
    ensures { result ≡ length (take_while is_space_or_tab text.now) }
{
    text.iter()
        .take_while(|b| **b == b' ' || **b == b'\t')
        .count()
}

// Three octal digits may be too many for a byte; then the third is no part of the number.
fn octal_digits(text: &[u8]) -> &[u8]
    ensures value { result.now ≡ octal_digits text.now }
    ensures digits { AllDigits 8 result.now }
    ensures few { length result.now ≤ 3 }
    ensures within { length result.now ≤ length text.now }
{
    let digits = leading_digits(text, 3, 8);
    if number(digits, 8) <= 255 {
        digits
    } else {
        &digits[..2]
    }
}

// At most `most` digits.
fn leading_digits(text: &[u8], most: usize, radix: u32) -> &[u8]
    requires binary_or_more { 2 ≤ radix }
    requires hexadecimal_or_less { radix ≤ 16 }
    ensures value { result.now ≡ leading_digits radix most text.now }
    ensures digits { AllDigits radix result.now }
    ensures few { length result.now ≤ most }
    ensures within { length result.now ≤ length text.now }
{
    let front = &text[..text.len().min(most)];
    &front[..digit_count(front, radix)]
}

// How many digits the text begins with.
fn digit_count(text: &[u8], radix: u32) -> usize
    requires binary_or_more { 2 ≤ radix }
    requires hexadecimal_or_less { radix ≤ 16 }
    ensures { result ≡ length (take_while (λ b. is_digit b radix) text.now) }
{
    text.iter()
        .take_while(|b| (**b as char).is_digit(radix))
        .count()
}

fn hexadecimal(letter: u8, text: &[u8], most: usize, next: usize) -> Backslash
    requires most { most ≤ 4 }
    requires room { next + length text.now < 2 ^ 64 }
    ensures value { take result.len result.bytes ≡
        (hexadecimal_sequence letter (leading_digits 16 most text.now)).value }
    ensures next { result.next + 1 ≡ next + (hexadecimal_sequence letter (leading_digits 16 most text.now)).takes }
    ensures within { result.next ≤ next + length text.now }
{
    let digits = leading_digits(text, most, 16);
    if digits.is_empty() {
        Backslash::byte(letter, next)
    } else {
        Backslash::character(number(digits, 16), next + digits.len())
    }
}

// The number that digits write.
fn number(digits: &[u8], radix: u32) -> u32
    requires binary_or_more { 2 ≤ radix }
    requires hexadecimal_or_less { radix ≤ 16 }
    requires digits { AllDigits radix digits.now }
    requires few { length digits.now ≤ 4 }
    ensures value { result ≡ digits_value radix digits.now }
    ensures bound { result < 2 ^ 16 }
{
    let mut number = 0;
    for digit in digits {
        let value = (*digit as char).to_digit(radix).unwrap_or(0);
        number = number * radix + value;
    }
    number
}
