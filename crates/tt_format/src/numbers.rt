//! Numbers as fields print them.
ghost use Rattle.std.specs.Prelude.{◌≡◌, IfOk};
ghost use Rattle.tt_text.specs.Backslash.{character_of};
ghost use Rattle.tt_format.specs.Printing.{code_point, complement, has_flag, numeral, sign};

use crate::kind::Base;
use std::alloc::Global;
use tt_text::{NoMemory, Text};

/// The digits of a number.
pub(crate) fn numeral(alloc: Global, base: Base, number: i64) -> Result<Text, NoMemory>
    ensures { IfOk result (λ text. text ≡ numeral base number) }
{
    let size = number.unsigned_abs();
    let bits = complement(number);
    let digits = match base {
        Base::Signed => format!(in alloc; "{size}")?,
        Base::Unsigned => format!(in alloc; "{bits}")?,
        Base::Hexadecimal => format!(in alloc; "{bits:x}")?,
        Base::Capitals => format!(in alloc; "{bits:X}")?,
        Base::Octal => format!(in alloc; "{bits:o}")?,
        Base::Binary => format!(in alloc; "{bits:b}")?,
    };
    let text = Text::from_bytes(alloc, digits.as_bytes())?;
    Ok(text)
}

// The number with the same 64 bits.
fn complement(number: i64) -> u64
    ensures { result ≡ complement number }
{
    if number < 0 {
        u64::MAX - (-(number + 1)) as u64
    } else {
        number as u64
    }
}

/// What stands before the digits of a number.
pub(crate) fn sign(base: Base, flags: &[u8], number: i64) -> &'static [u8]
    ensures { result.now ≡ sign base flags.now number }
{
    match base {
        Base::Signed if number < 0 => b"-",
        Base::Signed if has_flag(b'+', flags) => b"+",
        Base::Signed if has_flag(b' ', flags) => b" ",
        _ => b"",
    }
}

pub(crate) fn has_flag(flag: u8, flags: &[u8]) -> bool
    ensures { result ≡ has_flag flag flags.now }
{
    flags.iter().any(|b| *b == flag)
}

/// The character of a code point; U+FFFD for a number that is none.
pub(crate) fn character(alloc: Global, number: i64) -> Result<Text, NoMemory>
    ensures { IfOk result (λ text. text ≡ character_of (code_point number)) }
{
    let character = u32::try_from(number)
        .ok()
        .and_then(char::from_u32)
        .unwrap_or(char::REPLACEMENT_CHARACTER);
    let mut room = [0; 4];
    let text = Text::from_bytes(alloc, character.encode_utf8(&mut room).as_bytes())?;
    Ok(text)
}
