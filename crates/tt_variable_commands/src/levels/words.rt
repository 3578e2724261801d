//! Which of the words is a level (upvar(n), uplevel(n)).
ghost use Rattle.std.specs.Prelude.{◌≡◌};
ghost use Rattle.tt_variable_commands.specs.LevelWords as given;

use tt_text::Text;

/// Whether upvar(n) has a level: if the number of words is odd.
pub(crate) fn is_odd(words: &[Text]) -> bool
    ensures { result ≡ given.is_odd words.now }
{
    words.len() % 2 == 1
}

/// Whether uplevel(n) has a level: if the first of several words begins with `#` or a digit.
pub(crate) fn is_levelled(words: &[Text]) -> bool
    ensures { result ≡ given.is_levelled words.now }
{
    match words {
        [word, _, ..] => begins_level(word.as_bytes()),
        _ => false,
    }
}

fn begins_level(word: &[u8]) -> bool
    ensures { result ≡ given.begins_level word.now }
{
    match word {
        [byte, ..] => *byte == b'#' || char::from(*byte).is_digit(10),
        [] => false,
    }
}

/// The level that stands first, else `1`; and the words without it.
pub(crate) fn parted(has_level: bool, words: &[Text]) -> (&[u8], &[Text])
    ensures level { result.0.now ≡ (given.level_and_words has_level words.now).0 }
    ensures rest { result.1.now ≡ (given.level_and_words has_level words.now).1 }
{
    match words {
        [level, rest @ ..] if has_level => (level.as_bytes(), rest),
        _ => (b"1", words),
    }
}
