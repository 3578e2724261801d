ghost use Rattle.std.specs.Prelude.{◌≡◌, ◌≤◌, ◌<◌, ◌^◌, ℕ, IfSome, IfNone};
ghost use Rattle.std.specs.Char.{is_ascii_digit};
ghost use Rattle.std.specs.List.{list_all};
ghost use Rattle.std.specs.Option.{option_map};
ghost use Rattle.tt_words.specs.Asked.{HasNumber, Writes, WritesWithin};
ghost use Rattle.tt_words.specs.CodeValues.{text_of};

/// The most digits of a number.
const MOST_DIGITS: usize = 20;

/// The number that the option has: that of its value, or the default if it isn't given; `None` exactly if its
/// value writes no number from the least to the most.
pub fn number(value: Option<&str>, least: u64, most: u64, default: u64) -> Option<u64>
    requires { default ≤ most }
    ensures found { IfSome result (λ number. HasNumber least most default (option_map text_of value.entry) number) }
    ensures within { IfSome result (λ number. number ≤ most) }
    ensures none { IfNone result ((number : ℕ) →
        ¬ HasNumber least most default (option_map text_of value.entry) number) }
{
    match value {
        None => Some(default),
        Some(text) => number_within(text, least, most),
    }
}

/// The number that the text writes, from the least to the most; `None` exactly if it writes no such one.
pub(crate) fn number_within(text: &str, least: u64, most: u64) -> Option<u64>
    ensures found { IfSome result (WritesWithin least most text.now) }
    ensures within { IfSome result (λ number. number ≤ most) }
    ensures none { IfNone result ((number : ℕ) → ¬ WritesWithin least most text.now number) }
{
    let number = written(text)?;
    if number < least || number > most {
        return None;
    }
    Some(number)
}

/// The number that 1 to 20 digits write; `None` exactly if the text isn't so, or the number is 2^64 or more.
fn written(text: &str) -> Option<u64>
    ensures found { IfSome result (Writes text.now) }
    ensures none { IfNone result ((number : ℕ) → number < 2 ^ 64 → ¬ Writes text.now number) }
{
    if text.len() > MOST_DIGITS {
        return None;
    }
    if !all_digits(text) {
        return None;
    }
    text.parse::<u64>().ok()
}

/// Whether each byte is a digit.
fn all_digits(text: &str) -> bool
    ensures { result ≡ list_all is_ascii_digit text.now }
{
    text.bytes().all(|byte| byte.is_ascii_digit())
}
