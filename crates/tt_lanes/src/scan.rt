ghost use Rattle.std.specs.Prelude.{◌≡◌, ◌+◌, ◌≤◌, drop, length, not, take_while};
ghost use Rattle.std.specs.List.{position_or_len};
ghost use Rattle.tt_lanes.specs.Classes.{is_blank, is_brace_or_backslash, is_special, is_special_in_index};
ghost use Rattle.tt_lanes.specs.Classes.{is_special_in_quotes};

use crate::classes::{Brace, Index, LANES, NonBlank, Quoted, Special, Stop};

/// The first place from `from` on of a byte that means something in a command (Tcl(n), rules 1 to
/// 9): a byte 9 to 13 or 32, or one of `; " { } [ ] $ \`. The length if there is none.
pub fn next_special(bytes: &[u8], from: usize) -> usize
    requires { from ≤ length bytes.now }
    ensures { result ≡ from + position_or_len is_special (drop from bytes.now) }
{
    first_stop::<Special>(bytes, from)
}

/// The first place from `from` on of a byte that counts in braces (Tcl(n), rule 6): one of `{ } \`. The
/// length if there is none.
pub fn next_brace(bytes: &[u8], from: usize) -> usize
    requires { from ≤ length bytes.now }
    ensures { result ≡ from + position_or_len is_brace_or_backslash (drop from bytes.now) }
{
    first_stop::<Brace>(bytes, from)
}

/// The first place from `from` on of a byte that means something in quotes (Tcl(n), rule 4): one of
/// `" $ [ \`. The length if there is none.
pub fn next_in_quotes(bytes: &[u8], from: usize) -> usize
    requires { from ≤ length bytes.now }
    ensures { result ≡ from + position_or_len is_special_in_quotes (drop from bytes.now) }
{
    first_stop::<Quoted>(bytes, from)
}

/// The first place from `from` on of a byte that means something in a variable's index (Tcl(n), rule
/// 8): one of `) $ [ \`. The length if there is none.
pub fn next_in_index(bytes: &[u8], from: usize) -> usize
    requires { from ≤ length bytes.now }
    ensures { result ≡ from + position_or_len is_special_in_index (drop from bytes.now) }
{
    first_stop::<Index>(bytes, from)
}

/// The first place from `from` on of a byte other than 9, 11, 12, 13 and 32, or the length.
pub fn blank_run(bytes: &[u8], from: usize) -> usize
    requires { from ≤ length bytes.now }
    ensures { result ≡ from + length (take_while is_blank (drop from bytes.now)) }
{
    first_stop::<NonBlank>(bytes, from)
}

fn first_stop<S: Stop>(bytes: &[u8], from: usize) -> usize
    requires { from ≤ length bytes.now }
    ensures { result ≡ from + position_or_len S.is_stop (drop from bytes.now) }
{
    let mut at = from;
    while bytes.len() - at >= LANES {
        let run = S::run(bytes, at);
        if run < LANES {
            return at + run;
        }
        at += LANES;
    }
    at + plain_run::<S>(&bytes[at..])
}

/// How many bytes stand before the first stop, a byte at a time.
fn plain_run<S: Stop>(bytes: &[u8]) -> usize
    ensures value { result ≡ position_or_len S.is_stop bytes.now }
    ensures bound { result ≤ length bytes.now }
{
    bytes.iter().take_while(|b| !S::is_stop(**b)).count()
}
