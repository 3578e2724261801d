//! Pieces of a template with their values.
ghost use Rattle.std.specs.Prelude.{◌≡◌, ◌<◌, ◌≤◌, ℕ, Option, drop, length, IfOk};
ghost use Rattle.std.specs.Option.{option_map};
ghost use Rattle.tt_format.specs.Fields.{Printed, Refused, at_most, bad_specifier, by_letter, by_width, code_piece};
ghost use Rattle.tt_format.specs.Fields.{field, is_out_of_place, letters, not_enough, number_piece, of_kind};
ghost use Rattle.tt_format.specs.Fields.{percent_piece, piece, text_piece};
ghost use Rattle.tt_format.specs.inside.Reading.{IsAsked, IsGiven, IsNoLonger, IsPart, IsRead, IsShorter};
ghost use Rattle.tt_format.specs.inside.Reading.{LeavesTemplate};
ghost use Rattle.tt_format.specs.inside.Reading.{at_most_greatest};
ghost use Rattle.tt_format.specs.Specifiers as spec;

use crate::kind::{Base, Kind, kind_of};
use crate::layout::{Field, Fill};
use crate::numbers::{character, has_flag, numeral, sign};
use crate::specifier::{Specifier, read_specifier};
use std::alloc::Global;
use tt_number::read_whole;
use tt_strings::{character_at, leading};
use tt_text::{NoMemory, Text};

/// A piece of a template, and what is left of the template and of the values.
#[derive(Debug, Drop)]
pub(crate) enum Part<'a> {
    Prints(Field, &'a [u8], &'a [Text]),
    /// The message of its error.
    Refuses(Text),
}

/// How a field is asked for.
#[derive(Clone, Copy, Debug)]
struct Asked<'a> {
    flags: &'a [u8],
    /// Whether it is filled at its end.
    left: bool,
    width: u64,
    most: Option<u64>,
}

/// The number that the next value gives, and the values after it.
#[derive(Debug, Drop)]
pub(crate) enum Given<'a> {
    Number(i64, &'a [Text]),
    /// The message of why it gives none.
    Fails(Text),
}

// The next value as a number.
fn next_number(alloc: Global, values: &[Text]) -> Result<Given<'_>, NoMemory>
    ensures { IfOk result (λ given. IsGiven given values.now) }
{
    let [value, later @ ..] = values else {
        return Ok(Given::Fails(not_enough(alloc)?));
    };
    match read_whole(value.as_bytes()) {
        Ok(number) => Ok(Given::Number(number, later)),
        Err(fault) => Ok(Given::Fails(fault.message(alloc, value.as_bytes())?)),
    }
}

fn not_enough(alloc: Global) -> Result<Text, NoMemory>
    ensures { IfOk result (λ message. message ≡ not_enough) }
{
    Text::from_bytes(alloc, b"not enough arguments for all format specifiers")
}

fn bad_specifier(alloc: Global, letter: &[u8]) -> Result<Text, NoMemory>
    ensures { IfOk result (λ message. message ≡ bad_specifier letter.now) }
{
    let mut message = Text::from_bytes(alloc, b"bad field specifier \"")?;
    message.push_bytes(letter)?;
    message.push_bytes(b"\"")?;
    Ok(message)
}

// A piece that is refused for its letter.
fn refused<'a>(alloc: Global, letter: &[u8]) -> Result<Part<'a>, NoMemory>
    ensures { IfOk result (λ part. IsPart part (Refused (bad_specifier letter.now))) }
{
    let message = bad_specifier(alloc, letter)?;
    Ok(Part::Refuses(message))
}

// A field that prints a number.
fn number_field<'a>(
    alloc: Global,
    base: Base,
    asked: Asked<'_>,
    rest: &'a [u8],
    values: &'a [Text],
) -> Result<Part<'a>, NoMemory>
    ensures part { IfOk result (λ part.
        (width : ℕ) → asked.entry.width ≡ at_most_greatest width →
        IsPart part (number_piece base asked.entry.flags.now asked.entry.left width rest.now values.now)) }
    ensures kept { IfOk result (λ part. LeavesTemplate part rest.now) }
{
    match next_number(alloc, values)? {
        Given::Number(number, later) => {
            let field = Field {
                fill: Fill::of(asked.left, has_flag(b'0', asked.flags)),
                width: asked.width,
                sign: sign(base, asked.flags, number),
                body: numeral(alloc, base, number)?,
            };
            Ok(Part::Prints(field, rest, later))
        }
        Given::Fails(message) => Ok(Part::Refuses(message)),
    }
}

// A field that prints the character of a code point.
fn code_field<'a>(
    alloc: Global,
    asked: Asked<'_>,
    rest: &'a [u8],
    values: &'a [Text],
) -> Result<Part<'a>, NoMemory>
    ensures part { IfOk result (λ part.
        (width : ℕ) → asked.entry.width ≡ at_most_greatest width →
        IsPart part (code_piece asked.entry.left width rest.now values.now)) }
    ensures kept { IfOk result (λ part. LeavesTemplate part rest.now) }
{
    match next_number(alloc, values)? {
        Given::Number(number, later) => {
            let field = Field {
                fill: Fill::of(asked.left, false),
                width: asked.width,
                sign: b"",
                body: character(alloc, number)?,
            };
            Ok(Part::Prints(field, rest, later))
        }
        Given::Fails(message) => Ok(Part::Refuses(message)),
    }
}

// A field that prints characters of a value.
fn text_field<'a>(
    alloc: Global,
    asked: Asked<'_>,
    rest: &'a [u8],
    values: &'a [Text],
) -> Result<Part<'a>, NoMemory>
    ensures part { IfOk result (λ part.
        (width : ℕ) (most : Option ℕ) → asked.entry.width ≡ at_most_greatest width →
        asked.entry.most ≡ option_map at_most_greatest most →
        IsPart part (text_piece asked.entry.left width most rest.now values.now)) }
    ensures kept { IfOk result (λ part. LeavesTemplate part rest.now) }
{
    let [value, later @ ..] = values else {
        return Ok(Part::Refuses(not_enough(alloc)?));
    };
    let field = Field {
        fill: Fill::of(asked.left, false),
        width: asked.width,
        sign: b"",
        body: Text::from_bytes(alloc, at_most(value.as_bytes(), asked.most))?,
    };
    Ok(Part::Prints(field, rest, later))
}

// The first characters of a value, if their number is limited.
fn at_most(value: &[u8], most: Option<u64>) -> &[u8]
    ensures { (limit : Option ℕ) → most ≡ option_map at_most_greatest limit → result.now ≡ at_most limit value.now }
{
    match most {
        Some(count) => leading(value, (count as usize).min(value.len())),
        None => value,
    }
}

// A field that prints a percent sign.
fn percent_field<'a>(
    alloc: Global,
    asked: Asked<'_>,
    rest: &'a [u8],
    values: &'a [Text],
) -> Result<Part<'a>, NoMemory>
    ensures part { IfOk result (λ part.
        (width : ℕ) → asked.entry.width ≡ at_most_greatest width →
        IsPart part (percent_piece asked.entry.left width rest.now values.now)) }
    ensures kept { IfOk result (λ part. LeavesTemplate part rest.now) }
{
    let field = Field {
        fill: Fill::of(asked.left, false),
        width: asked.width,
        sign: b"",
        body: Text::from_bytes(alloc, b"%")?,
    };
    Ok(Part::Prints(field, rest, values))
}

// A field by its kind.
fn of_kind<'a>(
    alloc: Global,
    kind: Kind,
    asked: Asked<'_>,
    rest: &'a [u8],
    values: &'a [Text],
) -> Result<Part<'a>, NoMemory>
    ensures part { IfOk result (λ part.
        (s : spec.Specifier) (width : ℕ) → IsAsked asked.entry s width →
        IsPart part (of_kind kind s asked.entry.left width rest.now values.now)) }
    ensures kept { IfOk result (λ part. LeavesTemplate part rest.now) }
{
    match kind {
        Kind::Number(base) => {
            let part = number_field(alloc, base, asked, rest, values)?;
            Ok(part)
        }
        Kind::Code => {
            let part = code_field(alloc, asked, rest, values)?;
            Ok(part)
        }
        Kind::Characters => {
            let part = text_field(alloc, asked, rest, values)?;
            Ok(part)
        }
        Kind::Percent => {
            let part = percent_field(alloc, asked, rest, values)?;
            Ok(part)
        }
    }
}

// A field by the letter at the front of a template.
fn by_letter<'a>(
    alloc: Global,
    text: &'a [u8],
    asked: Asked<'_>,
    values: &'a [Text],
) -> Result<Part<'a>, NoMemory>
    ensures part { IfOk result (λ part.
        (s : spec.Specifier) (width : ℕ) → IsAsked asked.entry s width →
        IsPart part (by_letter text.now s asked.entry.left width values.now)) }
    ensures no_longer { IfOk result (λ part. IsNoLonger part text.now) }
{
    let [letter, rest @ ..] = text else {
        return refused(alloc, b"");
    };
    if is_out_of_place(asked.most, *letter) {
        return refused(alloc, b".");
    }
    match kind_of(*letter) {
        Some(kind) => {
            let part = of_kind(alloc, kind, asked, rest, values)?;
            Ok(part)
        }
        None => {
            let part = refused(alloc, character_at(text, 0))?;
            Ok(part)
        }
    }
}

// A limit is followed by `s` alone.
fn is_out_of_place(most: Option<u64>, letter: u8) -> bool
    ensures { (limit : Option ℕ) → most ≡ option_map at_most_greatest limit → result ≡ is_out_of_place limit letter }
{
    most.is_some() && letter != b's'
}

// A field of the width that its digits give.
fn by_width<'a>(
    alloc: Global,
    read: Specifier<'a>,
    width: u64,
    values: &'a [Text],
) -> Result<Part<'a>, NoMemory>
    ensures part { IfOk result (λ part.
        (s : spec.Specifier) (wide : ℕ) → IsRead read.entry s → width ≡ at_most_greatest wide →
        IsPart part (by_width (Some wide) s values.now)) }
    ensures no_longer { IfOk result (λ part. IsNoLonger part read.entry.rest.now) }
{
    let asked = Asked {
        flags: read.flags,
        left: has_flag(b'-', read.flags),
        width,
        most: read.most,
    };
    let part = by_letter(alloc, read.rest, asked, values)?;
    Ok(part)
}

// A field of the width that a value gives.
fn by_given_width<'a>(
    alloc: Global,
    read: Specifier<'a>,
    values: &'a [Text],
) -> Result<Part<'a>, NoMemory>
    ensures part { IfOk result (λ part.
        (s : spec.Specifier) → IsRead read.entry s → IsPart part (by_width None s values.now)) }
    ensures no_longer { IfOk result (λ part. IsNoLonger part read.entry.rest.now) }
{
    match next_number(alloc, values)? {
        Given::Number(number, later) => {
            let asked = Asked {
                flags: read.flags,
                left: has_flag(b'-', read.flags) || number < 0,
                width: number.unsigned_abs(),
                most: read.most,
            };
            let part = by_letter(alloc, read.rest, asked, later)?;
            Ok(part)
        }
        Given::Fails(message) => Ok(Part::Refuses(message)),
    }
}

// The field after a `%`.
fn read_field<'a>(alloc: Global, text: &'a [u8], values: &'a [Text]) -> Result<Part<'a>, NoMemory>
    ensures part { IfOk result (λ part. IsPart part (field text.now values.now)) }
    ensures no_longer { IfOk result (λ part. IsNoLonger part text.now) }
{
    let read = read_specifier(text);
    match read.width {
        Some(width) => {
            let part = by_width(alloc, read, width, values)?;
            Ok(part)
        }
        None => {
            let part = by_given_width(alloc, read, values)?;
            Ok(part)
        }
    }
}

// The letters up to the next field.
fn read_letters<'a>(
    alloc: Global,
    template: &'a [u8],
    values: &'a [Text],
) -> Result<Part<'a>, NoMemory>
    ensures part { IfOk result (λ part.
        IsPart part (Printed (letters template.now) (drop (length (letters template.now)) template.now) values.now)) }
    ensures left { IfOk result (λ part. LeavesTemplate part (drop (length (letters template.now)) template.now)) }
{
    let (letters, rest) = template.split_at(letter_count(template));
    let field = Field {
        fill: Fill::SpacesAfter,
        width: 0,
        sign: b"",
        body: Text::from_bytes(alloc, letters)?,
    };
    Ok(Part::Prints(field, rest, values))
}

fn letter_count(template: &[u8]) -> usize
    ensures count { result ≡ length (letters template.now) }
    ensures within { result ≤ length template.now }
{
    template.iter().take_while(|b| **b != b'%').count()
}

/// The first piece of a template: a field, or the letters up to the next one.
pub(crate) fn next_part<'a>(
    alloc: Global,
    template: &'a [u8],
    values: &'a [Text],
) -> Result<Part<'a>, NoMemory>
    requires { 0 < length template.now }
    ensures part { IfOk result (λ part. IsPart part (piece template.now values.now)) }
    ensures shorter { IfOk result (λ part. IsShorter part template.now) }
{
    match template {
        [b'%', text @ ..] => {
            let part = read_field(alloc, text, values)?;
            Ok(part)
        }
        _ => {
            let part = read_letters(alloc, template, values)?;
            Ok(part)
        }
    }
}
