//! When a long text of a variable is kept as a list. A text that is read again and again may be read as a list each
//! time, and one that is kept as a list is split once. No contract knows of this, since a value is its text.

use crate::spot::Spot;

/// How many names are counted at a time.
const PLACES: usize = 16;

/// The read at which a text is tried as a list.
const DUE: u8 = 4;

/// How often the long text of a name was read.
#[derive(Clone, Copy, Debug)]
struct Count {
    // A number of the name. Two names that have the same one are counted together.
    tag: u32,
    // How often it was read, up to the read at which it is tried.
    reads: u8,
    // How long the text was that was tried last; 0 if none was.
    tried: usize,
}

/// How often long texts were read. Each name has a place, and the name that came there last is counted.
#[derive(Clone, Copy, Debug)]
pub(crate) struct Rereads {
    counts: [Count; PLACES],
}

impl Rereads {
    /// Nothing was read.
    pub(crate) fn new() -> Self {
        Rereads {
            counts: [Count::begun(0); PLACES],
        }
    }

    /// Counts a read of a text of so many bytes, and says whether it is to be tried as a list now. A text is tried
    /// once. One that grows is tried again when it is twice as long, so that all trials take time in its length.
    pub(crate) fn is_due(&mut self, spot: &Spot, length: usize) -> bool {
        let tag = tag_of(spot);
        match self.counts.get_mut(place_of(tag)) {
            Some(count) => count.is_due(tag, length),
            None => false,
        }
    }

    /// Another value was given to the name: its text is tried anew.
    pub(crate) fn forget(&mut self, spot: &Spot) {
        let tag = tag_of(spot);
        if let Some(count) = self.counts.get_mut(place_of(tag)) {
            *count = Count::begun(tag);
        }
    }
}

impl Count {
    fn begun(tag: u32) -> Self {
        Count {
            tag,
            reads: 0,
            tried: 0,
        }
    }

    fn is_due(&mut self, tag: u32, length: usize) -> bool {
        if self.tag != tag {
            *self = Count::begun(tag);
        }
        self.reads = self.reads.saturating_add(1);
        if self.reads < DUE || length / 2 < self.tried {
            return false;
        }
        self.tried = length;
        true
    }
}

fn tag_of(spot: &Spot) -> u32 {
    let tag = mixed(0, spot.name.as_bytes());
    match &spot.index {
        Some(index) => mixed(tag.wrapping_add(1), index.as_bytes()),
        None => tag,
    }
}

fn mixed(tag: u32, bytes: &[u8]) -> u32 {
    let mut tag = tag;
    for byte in bytes {
        tag = tag.wrapping_mul(31).wrapping_add(u32::from(*byte));
    }
    tag
}

fn place_of(tag: u32) -> usize {
    (tag as usize) % PLACES
}
