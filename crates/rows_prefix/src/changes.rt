//! The texts that are made of one.
ghost use Rattle.std.specs.Prelude.{◌≤◌, length};

use crate::counts::Counts;
use crate::subject::Subject;
use std::alloc::{AllocError, Global};

/// How far the places of changes lie apart.
const STRIDE: usize = 7;

/// The bytes that are put in the place of another.
const BYTES: [u8; 11] = [
    b'{', b'}', b'[', b']', b'"', b'\\', b'$', b';', b'\n', 0, 0x80,
];

/// How the beginnings of a text and the changed ones end.
pub(crate) fn try_all(alloc: Global, subject: &Subject<'_>, text: &[u8]) -> anyhow::Result<Counts> {
    let mut counts = Counts::new();
    for length in 0..=text.len() {
        counts.add(&subject.end(alloc, &text[..length])?)?;
    }
    for place in (0..text.len()).step_by(STRIDE) {
        try_changes(alloc, subject, text, place, &mut counts)?;
    }
    Ok(counts)
}

fn try_changes(
    alloc: Global,
    subject: &Subject<'_>,
    text: &[u8],
    place: usize,
    counts: &mut Counts,
) -> anyhow::Result<()>
    requires { place ≤ length text.now }
{
    let (before, rest) = text.split_at(place);
    let Some((byte, after)) = rest.split_first() else {
        return Ok(());
    };
    let without = joined(alloc, before, &[], after)?;
    counts.add(&subject.end(alloc, &without)?)?;
    let twice = joined(alloc, before, &[*byte, *byte], after)?;
    counts.add(&subject.end(alloc, &twice)?)?;
    for other in BYTES {
        let changed = joined(alloc, before, &[other], after)?;
        counts.add(&subject.end(alloc, &changed)?)?;
    }
    Ok(())
}

fn joined(
    alloc: Global,
    before: &[u8],
    middle: &[u8],
    after: &[u8],
) -> Result<Vec<u8>, AllocError> {
    let mut text = Vec::from_slice(alloc, before)?;
    text.extend_from_slice(middle)?;
    text.extend_from_slice(after)?;
    Ok(text)
}
