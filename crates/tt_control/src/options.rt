//! Words that are meant as options.
ghost use Rattle.std.specs.Prelude.{◌≡◌};
ghost use Rattle.tt_control.specs.Refusals.{is_meant};

/// Whether a word is meant as an option: it begins with `-`, and is longer.
pub(crate) fn is_meant(word: &[u8]) -> bool
    ensures { result ≡ is_meant word.now }
{
    matches!(word, [b'-', _, ..])
}
