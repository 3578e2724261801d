ghost use Rattle.std.specs.Prelude.{◌≡◌, ◌≢◌, ◌≤◌, ◌++◌, ℕ, List, length, take, drop, true, IfSome, IfNone};
ghost use Rattle.std.specs.Fmt.{decimal};
ghost use Rattle.std.specs.Str.{all_ascii_digits};
ghost use Rattle.tt_ids.specs.Digits.{BeginsWithNoDigit, number_after};
ghost use Rattle.tt_ids.specs.ThreadNumbers.{IsInRange};
ghost use Rattle.tt_ids.specs.inside.DigitRun.{IsDigitRun};

/// The greatest number of a thread.
const MOST: u32 = 16_777_216;

/// How many digits that number has.
const MOST_DIGITS: usize = 8;

/// The number at the front, as ids and schedules write numbers of threads: from 1 to 16,777,216, in decimal
/// without leading zeros. With it comes the text after its digits. `None` exactly if the text begins with no such
/// number.
pub fn number_at(text: &[u8]) -> Option<(u32, &[u8])>
    ensures found { IfSome result (λ read.
        IsInRange read.0 × (text.now ≡ decimal read.0 ++ read.1.now) × BeginsWithNoDigit read.1.now) }
    ensures none { IfNone result ((n : ℕ) (rest : List ℕ) →
        IsInRange n → BeginsWithNoDigit rest → text.now ≢ decimal n ++ rest) }
{
    let (digits, rest) = text.split_at(digit_run(text));
    let number = number_in_range(digits)?;
    Some((number, rest))
}

/// The number from 1 to `MOST` that the digits write without leading zeros, or `None` exactly if they write none.
fn number_in_range(digits: &[u8]) -> Option<u32>
    requires { all_ascii_digits digits.now ≡ true }
    ensures found { IfSome result (λ number. IsInRange number × (digits.now ≡ decimal number)) }
    ensures none { IfNone result ((n : ℕ) → IsInRange n → digits.now ≢ decimal n) }
{
    if digits.is_empty() {
        return None;
    }
    if digits.len() > MOST_DIGITS {
        return None;
    }
    if digits[0] == b'0' {
        return None;
    }
    let number = value_of(digits);
    if number > MOST {
        return None;
    }
    Some(number)
}

/// How many digits the text begins with.
pub(crate) fn digit_run(text: &[u8]) -> usize
    ensures { IsDigitRun text.now result }
{
    for (place, byte) in text.iter().enumerate() {
        if !byte.is_ascii_digit() {
            return place;
        }
    }
    text.len()
}

/// The number that the digits write.
fn value_of(digits: &[u8]) -> u32
    requires short { length digits.now ≤ 8 }
    requires digits { all_ascii_digits digits.now ≡ true }
    ensures { result ≡ number_after 0 digits.now }
{
    let mut value = 0;
    for digit in digits {
        value = 10 * value + u32::from(*digit - b'0');
    }
    value
}
