ghost use Rattle.std.specs.Prelude.{◌≡◌};
ghost use Rattle.tt_text.specs.Characters.{is_white_space, without_white_front};

/// Whether the byte may part the words of a list or of a command: 9 to 13 or 32 (Tcl(n)).
pub fn is_white_space(byte: u8) -> bool
    ensures { result ≡ is_white_space byte }
{
    matches!(byte, 9..=13 | 32)
}

/// The text from its first byte on that is no white space (Tcl(n)); empty if each byte is.
pub fn without_white_front(mut text: &[u8]) -> &[u8]
    ensures { result.now ≡ without_white_front text.now }
{
    while let [first, rest @ ..] = text {
        if !is_white_space(*first) {
            break;
        }
        text = rest;
    }
    text
}
