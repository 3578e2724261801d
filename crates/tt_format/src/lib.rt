//! Texts printed by a template (format(n)).
#![tactic(auto)]

ghost use Rattle.std.specs.Prelude.{◌≡◌, codes, IfOk};
ghost use Rattle.tt_format.specs.Formatting.{IsFormat};

mod fields;
mod kind;
mod layout;
mod numbers;
mod specifier;

use fields::{Part, next_part};
pub use layout::LONGEST;
use layout::print;
use std::alloc::Global;
use tt_text::{NoMemory, Text};

/// What `format` answers (format(n)).
#[derive(Debug, Drop)]
pub enum Formatted {
    /// The printed text.
    Made(Text),
    /// The message of the first error from the left.
    Bad(Text),
}

/// Prints values by a template (format(n)).
///
/// A field is `%`, flags of `-`, `0`, `+` and space, a width (digits, or `*` for a value; a negative one means `-`),
/// for `s` also `.` and digits (how many characters at most), `l` or `ll`, which say nothing, and a letter: `d` and
/// `i` (decimal, `+` and space give a sign), `u x X o b` (the two's complement of 64 bits), `c` (the character of a
/// code point, or U+FFFD), `s` or `%`. `-` goes before `0`, which fills numbers alone, after the sign. The width
/// counts characters. Values that are left over are ignored.
///
/// The answer is `Bad` for the first error from the left: no value left, a value that is no whole number, another
/// letter, `.` before a letter other than `s`, or a text of more than `LONGEST` bytes, of which nothing is made.
/// `NoMemory` if memory for the text is refused.
pub fn format(alloc: Global, template: &[u8], values: &[Text]) -> Result<Formatted, NoMemory>
    ensures { IfOk result (λ answer. IsFormat template.now values.now answer) }
{
    let mut made = Vec::new(alloc);
    let mut left = template;
    let mut later = values;
    'pieces: while let [_, ..] = left {
        match next_part(alloc, left, later)? {
            Part::Refuses(message) => return Ok(Formatted::Bad(message)),
            Part::Prints(field, rest, values) => {
                if !print(&mut made, field)? {
                    return Ok(Formatted::Bad(too_long(alloc)?));
                }
                left = rest;
                later = values;
            }
        }
    }
    Ok(Formatted::Made(Text::from_vec(alloc, made)?))
}

fn too_long(alloc: Global) -> Result<Text, NoMemory>
    ensures { IfOk result (λ message. message ≡ codes "result too long") }
{
    Text::from_bytes(alloc, b"result too long")
}
