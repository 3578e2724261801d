ghost use Rattle.std.specs.Prelude.{◌≡◌, ◌∷◌, [], ◌<◌, ◌≤◌, take};
ghost use Rattle.tt_text.specs.Backslash.{character_of};

/// A backslash sequence (Tcl(n), rule 9): what it stands for, and where the text goes on.
#[derive(Clone, Copy, Debug)]
pub struct Backslash {
    /// The first `len` of them are what it stands for.
    pub bytes: [u8; 4],
    /// At most 4.
    pub len: u8,
    /// The place after the sequence.
    pub next: usize,
    ghost in_range: { len ≤ 4 },
}

impl Backslash {
    pub(crate) fn byte(byte: u8, next: usize) -> Self
        ensures value { take result.len result.bytes ≡ byte ∷ [] }
        ensures next { result.next ≡ next }
    {
        Backslash {
            bytes: [byte, 0, 0, 0],
            len: 1,
            next,
        }
    }

    // A surrogate is no character: U+FFFD stands in its place.
    pub(crate) fn character(code: u32, next: usize) -> Self
        requires { code < 0x11_0000 }
        ensures value { take result.len result.bytes ≡ character_of code }
        ensures next { result.next ≡ next }
    {
        let character = char::from_u32(code).unwrap_or(char::REPLACEMENT_CHARACTER);
        let mut room = [0; 4];
        let text = character.encode_utf8(&mut room).as_bytes();
        let mut bytes = [0; 4];
        bytes[..text.len()].copy_from_slice(text);
        Backslash {
            bytes,
            len: text.len() as u8,
            next,
        }
    }
}
