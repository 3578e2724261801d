ghost use Rattle.std.specs.Prelude.{◌≡◌, ◌+◌, ◌∷◌, ◌<◌, [], length, MatchOption, IfSome, take_while};
ghost use Rattle.std.specs.Prelude.{bytes_eq};
ghost use Rattle.std.specs.List.{list_all};
ghost use Rattle.tt_text.specs.Characters.{begins_character, characters, continues_character};

use tt_lanes::count_chars;

/// How many characters the text has (string(n), string length): one for its first byte, and one
/// for each later byte outside 0x80 to 0xBF. Many bytes are looked at at once.
#[tactic(auto, using(crate::proofs::CharacterLemmas::by_lanes))]
pub fn char_count(text: &[u8]) -> usize
    ensures { result ≡ length (characters text.now) }
{
    count_chars(text)
}

/// The first character, and the text after it (string(n), string index); `None` if the text is empty.
pub fn split_character(text: &[u8]) -> Option<(&[u8], &[u8])>
    ensures cases { MatchOption result
        (text.now ≡ [])
        (λ parts. characters text.now ≡ parts.0.now ∷ characters parts.1.now) }
    ensures shorter { IfSome result (λ parts. length parts.1.now < length text.now) }
{
    let (_, rest) = text.split_first()?;
    Some(text.split_at(1 + continuing(rest)))
}

// How many bytes at the front go on the character before them.
fn continuing(text: &[u8]) -> usize
    ensures { result ≡ length (take_while continues_character text.now) }
{
    text.iter().take_while(|b| continues_character(**b)).count()
}

/// Whether the byte goes on a character that began before it (string(n)): 0x80 to 0xBF.
pub fn continues_character(byte: u8) -> bool
    ensures { result ≡ continues_character byte }
{
    matches!(byte, 0x80..=0xBF)
}

/// Whether each byte begins a character, so that each character is one byte (string(n)).
pub(crate) fn is_narrow(text: &[u8]) -> bool
    ensures { result ≡ list_all begins_character text.now }
{
    match text.split_first() {
        Some((first, _)) => !continues_character(*first) && char_count(text) == text.len(),
        None => true,
    }
}

// Whether a character is this one byte.
pub(crate) fn is_byte(character: &[u8], byte: u8) -> bool
    ensures { result ≡ bytes_eq character.now (byte ∷ []) }
{
    character == [byte].as_slice()
}
