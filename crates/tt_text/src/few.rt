ghost use Rattle.std.specs.Prelude.{◌≡◌, ◌+◌, ◌≤◌, ◌++◌, [], bytes_eq, drop, length, take};

use std::marker::Model;

/// How many bytes a text keeps in place.
pub(crate) const ROOM: usize = 14;

/// Room for 14 bytes, and how many of them are there.
#[derive(Clone, Copy, Debug)]
struct Room {
    len: u8,
    bytes: [u8; ROOM],
}

/// At most 14 bytes, in place. Contracts see the list.
///
/// What the room has beyond them is 0, so that two are compared by their rooms.
#[derive(Debug, Drop)]
pub(crate) struct Few {
    room: Room,
}

impl Model for Few {
    ghost use Rattle.std.specs.Prelude.{ℕ, List, length, take, ◌≡◌, ◌≤◌};
    ghost use Rattle.tt_text.specs.inside.Room.{IsRoom};

    ghost Value = { List ℕ };

    ghost view = { λ few. take few.room.len few.room.bytes };

    ghost invariant = { λ few.
        (few.room.len ≤ 14) × (length few.room.bytes ≡ 14) × IsRoom few.room.len few.room.bytes };
}

impl Few {
    pub(crate) fn new() -> Self
        ensures empty { result ≡ [] }
    {
        Few {
            room: Room {
                len: 0,
                bytes: [0; ROOM],
            },
        }
    }

    pub(crate) fn as_slice(&self) -> &[u8]
        ensures bytes { result.now ≡ self.now }
    {
        &self.room.bytes[..usize::from(self.room.len)]
    }

    /// A second one of the same bytes: the whole room is copied at once.
    #[inline]
    pub(crate) fn copy(&self) -> Self
        ensures copied { result ≡ self.now }
    {
        Few { room: self.room }
    }

    /// The bytes of the other take the place of its own.
    #[inline]
    pub(crate) fn set(&mut self, other: &Few)
        ensures set { self.new ≡ other.now }
    {
        self.room = other.room;
    }

    /// Whether the other has the same bytes.
    #[tactic(auto, using(crate::proofs::RoomLemmas::by_rooms, crate::proofs::RoomLemmas::by_lengths))]
    pub(crate) fn is_same(&self, other: &Few) -> bool
        ensures same { result ≡ bytes_eq self.now other.now }
    {
        self.room.len == other.room.len && self.room.bytes == other.room.bytes
    }

    // How many bytes more there is room for.
    pub(crate) fn spare(&self) -> usize
        ensures spare { result + length self.now ≡ ROOM }
    {
        ROOM - usize::from(self.room.len)
    }

    pub(crate) fn push(&mut self, bytes: &[u8])
        requires fits { length self.old + length bytes.now ≤ ROOM }
        ensures pushed { self.new ≡ self.old ++ bytes.now }
    {
        let start = usize::from(self.room.len);
        write_at(&mut self.room.bytes, start, bytes);
        self.room.len += bytes.len() as u8;
    }
}

// Writes the bytes from a place on.
fn write_at(room: &mut [u8], start: usize, bytes: &[u8])
    requires within { start + length bytes.now ≤ length room.old }
    ensures written { take (start + length bytes.now) room.new ≡ take start room.old ++ bytes.now }
    ensures rest { drop (start + length bytes.now) room.new ≡ drop (start + length bytes.now) room.old }
    ensures len { length room.new ≡ length room.old }
{
    room[start..start + bytes.len()].copy_from_slice(bytes);
}
