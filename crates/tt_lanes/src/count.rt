ghost use Rattle.std.specs.Prelude.{◌≡◌, ◌≤◌, count_by, length};
ghost use Rattle.tt_lanes.specs.Classes.{character_count, is_newline};

use crate::classes::{Counted, FirstByte, Newline, WIDE_LANES};

/// How many newlines there are.
pub fn count_newlines(bytes: &[u8]) -> usize
    ensures { result ≡ count_by is_newline bytes.now }
{
    count::<Newline>(bytes)
}

/// How many characters the text has (string(n), string length): one for its first byte, and one
/// for each later byte outside 0x80 to 0xBF.
pub fn count_chars(bytes: &[u8]) -> usize
    ensures { result ≡ character_count bytes.now }
{
    match bytes.split_first() {
        None => 0,
        Some((_, rest)) => 1 + count::<FirstByte>(rest),
    }
}

fn count<C: Counted>(bytes: &[u8]) -> usize
    ensures bound { result ≤ length bytes.now }
    ensures value { result ≡ count_by C.is_counted bytes.now }
{
    let mut count = 0;
    let mut at = 0;
    while bytes.len() - at >= WIDE_LANES {
        count += C::count(bytes, at) as usize;
        at += WIDE_LANES;
    }
    count + plain_count::<C>(&bytes[at..])
}

/// How many bytes count, one at a time.
fn plain_count<C: Counted>(bytes: &[u8]) -> usize
    ensures bound { result ≤ length bytes.now }
    ensures value { result ≡ count_by C.is_counted bytes.now }
{
    bytes.iter().filter(|b| C::is_counted(**b)).count()
}
