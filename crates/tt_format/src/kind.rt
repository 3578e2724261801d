//! Letters of fields.
ghost use Rattle.std.specs.Prelude.{◌≡◌};
ghost use Rattle.tt_format.specs.Printing.{kind_of};

/// How a number is printed (format(n)).
#[derive(Clone, Copy, Debug)]
pub(crate) enum Base {
    /// In decimal, with its sign.
    Signed,
    /// In decimal, by its 64 bits.
    Unsigned,
    /// In base 16, by its 64 bits.
    Hexadecimal,
    /// In base 16 with capital letters.
    Capitals,
    /// In base 8.
    Octal,
    /// In base 2.
    Binary,
}

/// What a field prints (format(n)).
#[derive(Clone, Copy, Debug)]
pub(crate) enum Kind {
    Number(Base),
    /// The character of a code point.
    Code,
    /// The characters of a value.
    Characters,
    /// A percent sign, which takes no value.
    Percent,
}

/// What a field with this letter prints, or `None` if no field has it.
pub(crate) fn kind_of(letter: u8) -> Option<Kind>
    ensures { result ≡ kind_of letter }
{
    match letter {
        b'd' | b'i' => Some(Kind::Number(Base::Signed)),
        b'u' => Some(Kind::Number(Base::Unsigned)),
        b'x' => Some(Kind::Number(Base::Hexadecimal)),
        b'X' => Some(Kind::Number(Base::Capitals)),
        b'o' => Some(Kind::Number(Base::Octal)),
        b'b' => Some(Kind::Number(Base::Binary)),
        b'c' => Some(Kind::Code),
        b's' => Some(Kind::Characters),
        b'%' => Some(Kind::Percent),
        _ => None,
    }
}
