//! Options without a value.
ghost use Rattle.std.specs.Prelude.{◌≡◌, ◌≤◌, length};
ghost use Rattle.std.specs.Option.{option_map};
ghost use Rattle.tt_command_tables.specs.Flags as flags;

use tt_text::Text;

/// An option (thread(n), tpool(n), puts(n)).
#[derive(Clone, Copy, Debug, PartialEq, Eq)]
pub enum Flag {
    Joinable,
    Preserved,
    Wait,
    Async,
    Head,
    NoNewline,
    Recursive,
    Detached,
    NoWait,
}

fn spelling(flag: Flag) -> &'static [u8]
    ensures { result.now ≡ flags.spelling flag }
{
    match flag {
        Flag::Joinable => b"-joinable",
        Flag::Preserved => b"-preserved",
        Flag::Wait => b"-wait",
        Flag::Async => b"-async",
        Flag::Head => b"-head",
        Flag::NoNewline => b"-nonewline",
        Flag::Recursive => b"-recursive",
        Flag::Detached => b"-detached",
        Flag::NoWait => b"-nowait",
    }
}

fn named(known: &[Flag], word: &[u8]) -> Option<Flag>
    ensures { result ≡ flags.flag_named known.now word.now }
{
    known.iter().copied().find(|flag| word == spelling(*flag))
}

/// Whether a word is meant as an option: it begins with `-`, and is longer.
pub fn is_meant(word: &[u8]) -> bool
    ensures { result ≡ flags.is_meant word.now }
{
    matches!(word, [b'-', _, ..])
}

fn before_last(words: &[Text], required: usize) -> &[Text]
    ensures { result.now ≡ flags.before_last required words.now }
{
    &words[..words.len().saturating_sub(required)]
}

/// The first word before the last ones that is meant as an option, and is none of these.
pub fn first_unknown<'a>(known: &[Flag], required: usize, words: &'a [Text]) -> Option<&'a Text>
    ensures { option_map (λ w. w.now) result ≡ flags.first_unknown known.now (flags.before_last required words.now) }
{
    before_last(words, required).iter().find(|word| is_meant(word.as_bytes())
        && named(known, word.as_bytes()).is_none())
}

/// How many of these options stand in front.
pub fn front(known: &[Flag], required: usize, words: &[Text]) -> usize
    ensures count { result ≡ flags.front known.now (flags.before_last required words.now) }
    ensures within { result ≤ length words.now }
{
    front_of(known, before_last(words, required))
}

fn front_of(known: &[Flag], words: &[Text]) -> usize
    ensures count { result ≡ flags.front known.now words.now }
    ensures within { result ≤ length words.now }
{
    words
        .iter()
        .take_while(|word| named(known, word.as_bytes()).is_some())
        .count()
}

/// Whether an option stands among these.
pub fn has(flag: Flag, options: &[Text]) -> bool
    ensures { result ≡ flags.has flag options.now }
{
    options.iter().any(|word| word.as_bytes() == spelling(flag))
}
