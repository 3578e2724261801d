ghost use Rattle.std.specs.Prelude.{◌≡◌, ◌≢◌, ◌++◌, ◌≤◌, ℕ, List, length, true, IfNone, IfOk, IfSome};
ghost use Rattle.std.specs.Option.{option_copied};
ghost use Rattle.std.specs.Prelude.{option_and_then};
ghost use Rattle.std.specs.Str.{all_ascii_digits};
ghost use Rattle.tt_debug.specs.Commands.{command_of, has_zero_first, is_of_id, is_small, small_number, thread_in};
ghost use Rattle.tt_ids.specs.Digits.{number_after};
ghost use Rattle.tt_ids.specs.Ids.{after_letters};

use std::alloc::Global;
use tt_text::{NoMemory, Text};

/// The most digits of a number.
const MOST_DIGITS: usize = 8;

/// What a line of a session says.
#[derive(Debug, Drop)]
pub enum Command {
    /// So many entries forth.
    Step(u32),
    /// So many entries back.
    Back(u32),
    /// To the place after so many entries.
    To(u32),
    /// Show the threads that live.
    Threads,
    /// Show the queue of a thread; `None` if its number has more digits than any thread's.
    Queue(Option<u32>),
    /// Show a shared array.
    Array(Text),
    /// Show how many bytes were written.
    Bytes,
    /// Anything else.
    Unknown,
}

/// What the line says.
///
/// `NoMemory` if memory for a name is refused.
pub fn read_command(alloc: Global, line: &[u8]) -> Result<Command, NoMemory>
    ensures read { IfOk result (λ command. command ≡ command_of line.now) }
{
    if let Some(count) = number_behind(b"step ", line) {
        return Ok(Command::Step(count));
    }
    if let Some(count) = number_behind(b"back ", line) {
        return Ok(Command::Back(count));
    }
    if let Some(place) = number_behind(b"to ", line) {
        return Ok(Command::To(place));
    }
    if line == b"threads".as_slice() {
        return Ok(Command::Threads);
    }
    if line == b"bytes".as_slice() {
        return Ok(Command::Bytes);
    }
    if let Some(thread) = thread_behind(b"queue tid", line) {
        return Ok(Command::Queue(thread));
    }
    match behind(b"array ", line) {
        Some(name) => Ok(Command::Array(Text::from_bytes(alloc, name)?)),
        None => Ok(Command::Unknown),
    }
}

/// What stands behind a word.
fn behind<'l>(word: &[u8], line: &'l [u8]) -> Option<&'l [u8]>
    ensures behind { option_copied result ≡ after_letters word.now line.now }
{
    match without(word, line) {
        Some(rest) => Some(rest),
        None => None,
    }
}

fn without<'l>(word: &[u8], line: &'l [u8]) -> Option<&'l [u8]>
    ensures some { IfSome result (λ rest. line.now ≡ word.now ++ rest.now) }
    ensures none { IfNone result ((rest : List ℕ) → line.now ≢ word.now ++ rest) }
{
    let rest = line.strip_prefix(word)?;
    Some(rest)
}

/// The number behind a word.
fn number_behind(word: &[u8], line: &[u8]) -> Option<u32>
    ensures { result ≡ option_and_then small_number (after_letters word.now line.now) }
{
    match behind(word, line) {
        Some(digits) => small_number(digits),
        None => None,
    }
}

/// The thread whose number stands behind a word.
fn thread_behind(word: &[u8], line: &[u8]) -> Option<Option<u32>>
    ensures { result ≡ option_and_then thread_in (after_letters word.now line.now) }
{
    match behind(word, line) {
        Some(digits) => thread_in(digits),
        None => None,
    }
}

fn thread_in(digits: &[u8]) -> Option<Option<u32>>
    ensures { result ≡ thread_in digits.now }
{
    if !is_of_id(digits) {
        return None;
    }
    Some(small_number(digits))
}

fn is_of_id(digits: &[u8]) -> bool
    ensures { result ≡ is_of_id digits.now }
{
    !digits.is_empty() && !has_zero_first(digits) && are_digits(digits)
}

fn has_zero_first(digits: &[u8]) -> bool
    ensures { result ≡ has_zero_first digits.now }
{
    match digits.first() {
        Some(digit) => *digit == b'0',
        None => false,
    }
}

fn small_number(digits: &[u8]) -> Option<u32>
    ensures { result ≡ small_number digits.now }
{
    if !is_small(digits) {
        return None;
    }
    Some(value_of(digits))
}

fn is_small(digits: &[u8]) -> bool
    ensures { result ≡ is_small digits.now }
{
    !digits.is_empty() && digits.len() <= MOST_DIGITS && are_digits(digits)
}

fn are_digits(bytes: &[u8]) -> bool
    ensures { result ≡ all_ascii_digits bytes.now }
{
    for byte in bytes {
        if !byte.is_ascii_digit() {
            return false;
        }
    }
    true
}

/// The number that the digits write.
fn value_of(digits: &[u8]) -> u32
    requires short { length digits.now ≤ 8 }
    requires digits { all_ascii_digits digits.now ≡ true }
    ensures { result ≡ number_after 0 digits.now }
{
    let mut value = 0;
    for digit in digits {
        value = 10 * value + u32::from(*digit - b'0');
    }
    value
}
