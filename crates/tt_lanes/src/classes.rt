//! Classes of bytes, each as a test of one byte and of many at once.
ghost use Rattle.std.specs.Prelude.{◌≡◌, ℕ, ◌+◌, ◌≤◌, Bool, length, not, count_by, if◌then◌else◌, ◌==◌};
ghost use Rattle.std.specs.Int.{trailing_zeros, w64};
ghost use Rattle.std.specs.List.{position_or_len};
ghost use Rattle.std.specs.Simd.Lanes.{chunk};
ghost use Rattle.tt_lanes.specs.Classes.{begins_character, is_blank, is_brace_or_backslash, is_newline, is_special};
ghost use Rattle.tt_lanes.specs.Classes.{is_special_in_index, is_special_in_quotes};

use std::simd::prelude::*;

/// How many bytes a scan looks at at once.
pub(crate) const LANES: usize = 16;

/// How many bytes a count looks at at once.
pub(crate) const WIDE_LANES: usize = 64;

/// The bytes at which a scan stops.
pub(crate) trait Stop {
    ghost is_stop: { ℕ → Bool };

    fn is_stop(byte: u8) -> bool
        ensures { result ≡ is_stop byte };

    /// How many of the 16 bytes from `at` on stand before the first stop.
    fn run(bytes: &[u8], at: usize) -> usize
        requires { at + LANES ≤ length bytes.now }
        ensures { result ≡ position_or_len is_stop (chunk at LANES bytes.now) };
}

/// The bytes that a count counts.
pub(crate) trait Counted {
    ghost is_counted: { ℕ → Bool };

    fn is_counted(byte: u8) -> bool
        ensures { result ≡ is_counted byte };

    /// How many of the 64 bytes from `at` on count.
    fn count(bytes: &[u8], at: usize) -> u32
        requires { at + WIDE_LANES ≤ length bytes.now }
        ensures { result ≡ count_by is_counted (chunk at WIDE_LANES bytes.now) };
}

pub(crate) struct Special;

impl Stop for Special {
    ghost is_stop = { is_special };

    fn is_stop(byte: u8) -> bool {
        matches!(
            byte,
            9..=13 | b' ' | b';' | b'"' | b'{' | b'}' | b'[' | b']' | b'$' | b'\\'
        )
    }

    #[inline(always)]
    fn run(bytes: &[u8], at: usize) -> usize {
        let lanes = u8x16::from_slice(&bytes[at..]);
        // A byte below 9 wraps to a large one.
        let controls = (lanes - u8x16::splat(9)).simd_lt(u8x16::splat(5));
        // A space and `$` differ in one bit, and so do a bracket and the brace beside it.
        let space_or_dollar = (lanes & u8x16::splat(!4)).simd_eq(u8x16::splat(b' '));
        let folded = lanes | u8x16::splat(b' ');
        let brackets = folded.simd_eq(u8x16::splat(b'{')) | folded.simd_eq(u8x16::splat(b'}'));
        let others = lanes.simd_eq(u8x16::splat(b';'))
            | lanes.simd_eq(u8x16::splat(b'"'))
            | lanes.simd_eq(u8x16::splat(b'\\'));
        first_set((controls | space_or_dollar | brackets | others).to_bitmask())
    }
}

pub(crate) struct Brace;

impl Stop for Brace {
    ghost is_stop = { is_brace_or_backslash };

    fn is_stop(byte: u8) -> bool {
        matches!(byte, b'{' | b'}' | b'\\')
    }

    #[inline(always)]
    fn run(bytes: &[u8], at: usize) -> usize {
        let lanes = u8x16::from_slice(&bytes[at..]);
        let braces = lanes.simd_eq(u8x16::splat(b'{')) | lanes.simd_eq(u8x16::splat(b'}'));
        first_set((braces | lanes.simd_eq(u8x16::splat(b'\\'))).to_bitmask())
    }
}

pub(crate) struct Quoted;

impl Stop for Quoted {
    ghost is_stop = { is_special_in_quotes };

    fn is_stop(byte: u8) -> bool {
        matches!(byte, b'"' | b'$' | b'[' | b'\\')
    }

    #[inline(always)]
    fn run(bytes: &[u8], at: usize) -> usize {
        let lanes = u8x16::from_slice(&bytes[at..]);
        let others = lanes.simd_eq(u8x16::splat(b'"')) | lanes.simd_eq(u8x16::splat(b'$'));
        let opens = lanes.simd_eq(u8x16::splat(b'[')) | lanes.simd_eq(u8x16::splat(b'\\'));
        first_set((others | opens).to_bitmask())
    }
}

pub(crate) struct Index;

impl Stop for Index {
    ghost is_stop = { is_special_in_index };

    fn is_stop(byte: u8) -> bool {
        matches!(byte, b')' | b'$' | b'[' | b'\\')
    }

    #[inline(always)]
    fn run(bytes: &[u8], at: usize) -> usize {
        let lanes = u8x16::from_slice(&bytes[at..]);
        let others = lanes.simd_eq(u8x16::splat(b')')) | lanes.simd_eq(u8x16::splat(b'$'));
        let opens = lanes.simd_eq(u8x16::splat(b'[')) | lanes.simd_eq(u8x16::splat(b'\\'));
        first_set((others | opens).to_bitmask())
    }
}

pub(crate) struct NonBlank;

impl Stop for NonBlank {
    ghost is_stop = { λ b. not (is_blank b) };

    fn is_stop(byte: u8) -> bool {
        !matches!(byte, 9 | 11..=13 | b' ')
    }

    #[inline(always)]
    fn run(bytes: &[u8], at: usize) -> usize {
        let lanes = u8x16::from_slice(&bytes[at..]);
        let others = (lanes - u8x16::splat(9)).simd_ge(u8x16::splat(5));
        let stops = others | lanes.simd_eq(u8x16::splat(b'\n'));
        first_set((stops & lanes.simd_ne(u8x16::splat(b' '))).to_bitmask())
    }
}

pub(crate) struct Newline;

impl Counted for Newline {
    ghost is_counted = { is_newline };

    fn is_counted(byte: u8) -> bool {
        byte == b'\n'
    }

    #[inline(always)]
    fn count(bytes: &[u8], at: usize) -> u32 {
        let lanes = u8x64::from_slice(&bytes[at..]);
        lanes.simd_eq(u8x64::splat(b'\n')).to_bitmask().count_ones()
    }
}

pub(crate) struct FirstByte;

impl Counted for FirstByte {
    ghost is_counted = { begins_character };

    fn is_counted(byte: u8) -> bool {
        !matches!(byte, 0x80..=0xBF)
    }

    #[inline(always)]
    fn count(bytes: &[u8], at: usize) -> u32 {
        let lanes = u8x64::from_slice(&bytes[at..]);
        (lanes & u8x64::splat(0xC0))
            .simd_ne(u8x64::splat(0x80))
            .to_bitmask()
            .count_ones()
    }
}

/// The place of the lowest bit that is set, or the number of lanes.
#[inline(always)]
fn first_set(mask: u64) -> usize
    ensures { result ≡ (if mask == 0 then LANES else trailing_zeros w64 mask) }
{
    if mask == 0 {
        LANES
    } else {
        mask.trailing_zeros() as usize
    }
}
