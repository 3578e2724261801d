//! The options of commands.
ghost use Rattle.std.specs.Prelude.{◌≡◌};
ghost use Rattle.std.specs.Option.{option_map};
ghost use Rattle.tt_pure.specs.Flags as flags;

use tt_text::Text;

/// An option (lsearch(n), lsort(n)).
#[derive(Clone, Copy, Debug, PartialEq, Eq)]
pub(crate) enum Flag {
    Exact,
    Glob,
    All,
    Inline,
    Not,
    Ascii,
    Integer,
    Increasing,
    Decreasing,
    Unique,
}

fn spelling(flag: Flag) -> &'static [u8]
    ensures { result.now ≡ flags.spelling flag }
{
    match flag {
        Flag::Exact => b"-exact",
        Flag::Glob => b"-glob",
        Flag::All => b"-all",
        Flag::Inline => b"-inline",
        Flag::Not => b"-not",
        Flag::Ascii => b"-ascii",
        Flag::Integer => b"-integer",
        Flag::Increasing => b"-increasing",
        Flag::Decreasing => b"-decreasing",
        Flag::Unique => b"-unique",
    }
}

/// The one of these options that a word is.
pub(crate) fn named(known: &[Flag], word: &[u8]) -> Option<Flag>
    ensures { result ≡ flags.flag_named known.now word.now }
{
    known.iter().copied().find(|flag| word == spelling(*flag))
}

fn is_meant(word: &[u8]) -> bool
    ensures { result ≡ flags.is_meant word.now }
{
    matches!(word, [b'-', _, ..])
}

/// The first word that is meant as an option, and is none of these.
pub(crate) fn first_unknown<'a>(known: &[Flag], words: &'a [Text]) -> Option<&'a Text>
    ensures { option_map (λ word. word.now) result ≡ flags.first_unknown known.now words.now }
{
    words.iter().find(|word| is_meant(word.as_bytes()) && named(known, word.as_bytes()).is_none())
}
