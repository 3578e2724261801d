//! Fields filled up to their width.
ghost use Rattle.std.specs.Prelude.{◌≡◌, ◌+◌, ◌-◌, ◌≤◌, ◌++◌, ◌↔◌, IsTrue, length, replicate, OnOk, IfOk};
ghost use Rattle.tt_format.specs.Formatting.{longest};
ghost use Rattle.tt_format.specs.Printing.{fill_of, layout, missing};
ghost use Rattle.tt_format.specs.inside.Reading.{IsPrinted};

use tt_text::{NoMemory, Text, char_count};

/// The greatest length of what is printed, in bytes.
pub const LONGEST: usize = 268_435_456;

/// How a field is filled up to its width (format(n)).
#[derive(Clone, Copy, Debug)]
pub(crate) enum Fill {
    /// Spaces come after it.
    SpacesAfter,
    /// Zeros come after its sign.
    Zeros,
    /// Spaces come before it.
    SpacesBefore,
}

impl Fill {
    /// `-` goes before `0`.
    pub(crate) fn of(left: bool, zeros: bool) -> Self
        ensures { result ≡ fill_of left zeros }
    {
        if left {
            Fill::SpacesAfter
        } else if zeros {
            Fill::Zeros
        } else {
            Fill::SpacesBefore
        }
    }
}

/// What a field prints: a sign and a body, filled up to a width.
#[derive(Debug, Drop)]
pub(crate) struct Field {
    pub fill: Fill,
    pub width: u64,
    pub sign: &'static [u8],
    pub body: Text,
}

/// Prints a field after what was printed before, if all is no longer than `LONGEST`; else nothing is made.
///
/// `NoMemory` if memory for it is refused.
pub(crate) fn print(made: &mut Vec<u8>, field: Field) -> Result<bool, NoMemory>
    requires short { length made.old.items ≤ longest }
    ensures printed { IfOk result (λ fits.
        IsPrinted fits made.old.items made.new.items (layout field.fill field.width field.sign.now field.body)) }
{
    let lacking = missing(&field);
    if !fits(made.len(), &field, lacking) {
        return Ok(false);
    }
    put(made, &field, lacking)?;
    Ok(true)
}

// How many characters a field has too few for its width.
fn missing(field: &Field) -> u64
    ensures { result ≡ missing field.now.width field.now.sign.now field.now.body }
{
    field
        .width
        .saturating_sub(field.sign.len() as u64)
        .saturating_sub(char_count(field.body.as_bytes()) as u64)
}

// Whether a field with so many characters more fits after so many bytes.
fn fits(before: usize, field: &Field, lacking: u64) -> bool
    requires { before ≤ longest }
    ensures { IsTrue result ↔ (before + length field.now.sign.now + length field.now.body + lacking ≤ longest) }
{
    let room = LONGEST - before;
    let sign = field.sign.len();
    let body = field.body.len();
    sign <= room && body <= room - sign && lacking <= (room - sign - body) as u64
}

fn put(made: &mut Vec<u8>, field: &Field, lacking: u64) -> Result<(), NoMemory>
    requires { lacking ≡ missing field.now.width field.now.sign.now field.now.body }
    ensures { OnOk result
        (made.new.items ≡ made.old.items ++ layout field.now.fill field.now.width field.now.sign.now field.now.body) }
{
    match field.fill {
        Fill::SpacesAfter => {
            made.extend_from_slice(field.sign)?;
            made.extend_from_slice(field.body.as_bytes())?;
            repeat(made, lacking, b' ')
        }
        Fill::Zeros => {
            made.extend_from_slice(field.sign)?;
            repeat(made, lacking, b'0')?;
            Ok(made.extend_from_slice(field.body.as_bytes())?)
        }
        Fill::SpacesBefore => {
            repeat(made, lacking, b' ')?;
            made.extend_from_slice(field.sign)?;
            Ok(made.extend_from_slice(field.body.as_bytes())?)
        }
    }
}

fn repeat(made: &mut Vec<u8>, count: u64, byte: u8) -> Result<(), NoMemory>
    ensures { OnOk result (made.new.items ≡ made.old.items ++ replicate count byte) }
{
    for _ in 0..count {
        made.push(byte)?;
    }
    Ok(())
}
