ghost use Rattle.std.specs.Prelude.{◌≡◌, ◌≢◌, ◌≤◌, ◌<◌, ◌+◌, ◌++◌, ℕ, List, [], take, drop, length, slice_index, min};
ghost use Rattle.std.specs.Prelude.{MatchOption, IfOk, OnOk, IsErrOf, IsOk, Ok, Err, IsTrue, true, false, ◌↔◌};
ghost use Rattle.std.specs.Io.KnownBytes.{IsAtEnd, Keeps, prepend_known};
ghost use Rattle.tt_devices.specs.Faults.{Rises};
ghost use Rattle.tt_devices.specs.Streams.{LosesPart};
ghost use Rattle.tt_lines.specs.Lines.{IsInLine, TakesLine, ReadsKnown};
ghost use Rattle.tt_shared.specs.declared.applied.Line.TheVariants.{Read};

use crate::LineFault;
use memchr::memchr;
use std::alloc::Global;
use std::marker::Model;
use tt_devices::Source;
use tt_shared::Line;
use tt_text::Text;

/// The most bytes of a line, without its newline.
const MOST_BYTES: usize = 16_777_216;

/// A line with its newline stands in so many bytes, or it is too long.
const MOST_SEARCHED: usize = 16_777_217;

/// The most bytes that are read at once.
const PIECE: usize = 4_096;

/// Bytes that were read ahead of standard input, and not yet used. Contracts see their list.
#[derive(Debug, Drop)]
pub struct Ahead {
    bytes: Vec<u8>,
    used: usize,
    alloc: Global,
}

impl Model for Ahead {
    ghost use Rattle.std.specs.Prelude.{ℕ, List, ◌≤◌, drop, vec_len};

    ghost Value = { List ℕ };

    ghost view = { λ ahead. drop ahead.used ahead.bytes.items };

    ghost invariant = { λ ahead. ahead.used ≤ vec_len ahead.bytes };
}

impl Ahead {
    /// Nothing was read ahead. It takes no memory.
    pub fn new(alloc: Global) -> Self
        ensures empty { result ≡ [] }
    {
        Ahead {
            bytes: Vec::new(alloc),
            used: 0,
            alloc,
        }
    }

    /// The next line of standard input: of the bytes that were read ahead, and then of those that the source gives
    /// (gets(n)). A line of more than 16,777,216 bytes without its newline is too long; of it so many are used.
    ///
    /// Nothing is read of the source if a newline was read ahead.
    ///
    /// `Failed` only if the source's count of faults rose; then no byte is lost. `NoMemory` if memory is refused.
    pub fn next_line<S: Source>(&mut self, source: &mut S) -> Result<Line, LineFault>
        ensures line { IfOk result (λ line. ReadsKnown
            (prepend_known self.old (S.held source.old)) (prepend_known self.new (S.held source.new)) line) }
        ensures steady { (result ≢ Err LineFault.Failed) → S.fault_count source.new ≡ S.fault_count source.old }
        ensures cause { IsErrOf result LineFault.Failed → Rises (S.fault_count source.old) (S.fault_count source.new) }
        ensures nothing_lost { IsErrOf result LineFault.Failed →
            Keeps (prepend_known self.old (S.held source.old)) (prepend_known self.new (S.held source.new)) }
        ensures taken { LosesPart (S.held source.old) (S.held source.new) }
        ensures read_ahead { ¬ (IsInLine self.old) → (source.new ≡ source.old) × (result ≢ Err LineFault.Failed) }
    {
        let mut searched = 0;
        while searched < MOST_SEARCHED {
            if !self.has_more(source, searched)? {
                return self.take_last();
            }
            match first_newline(self.front(), searched) {
                Some(place) => return self.take_line(place + 1),
                None => searched = self.front().len(),
            }
        }
        self.pass(MOST_BYTES);
        Ok(Line::TooLong)
    }

    // The bytes that are not yet used.
    fn unused(&self) -> &[u8]
        ensures { result.now ≡ self.now }
    {
        let (_, unused) = self.bytes.split_at(self.used);
        unused
    }

    // The first of them, as far as a newline is searched.
    fn front(&self) -> &[u8]
        ensures { result.now ≡ take MOST_SEARCHED self.now }
    {
        let unused = self.unused();
        if unused.len() <= MOST_SEARCHED {
            return unused;
        }
        &unused[..MOST_SEARCHED]
    }

    // Uses so many of the bytes.
    fn pass(&mut self, count: usize)
        requires within { count ≤ length self.old }
        ensures left { self.new ≡ drop count self.old }
    {
        self.used += count;
    }

    // Uses the first of the bytes as a line.
    fn take_line(&mut self, count: usize) -> Result<Line, LineFault>
        requires within { count ≤ length self.old }
        ensures line { IfOk result (λ line. line ≡ Read (take count self.old)) }
        ensures left { OnOk result (self.new ≡ drop count self.old) }
        ensures no_memory { result ≢ Err LineFault.Failed }
    {
        let line = &self.unused()[..count];
        match Text::from_bytes(self.alloc, line) {
            Ok(text) => {
                self.pass(count);
                Ok(Line::Read(text))
            }
            Err(_) => Err(LineFault::NoMemory),
        }
    }

    // Uses all the bytes, which no newline ends.
    fn take_last(&mut self) -> Result<Line, LineFault>
        requires in_line { IsInLine self.old }
        requires few { length self.old ≤ MOST_BYTES }
        ensures line { IfOk result (λ line. TakesLine self.old line self.new) }
        ensures left { OnOk result (self.new ≡ []) }
        ensures no_memory { result ≢ Err LineFault.Failed }
    {
        let count = self.unused().len();
        if count == 0 {
            return Ok(Line::End);
        }
        self.take_line(count)
    }

    // Whether there are more bytes than were searched. There are none more only at the end of input. The source is read
    // only if all that were read ahead were searched.
    fn has_more<S: Source>(&mut self, source: &mut S, searched: usize) -> Result<bool, LineFault>
        requires within { searched ≤ length self.old }
        ensures same { take searched self.new ≡ take searched self.old }
        ensures within { searched ≤ length self.new }
        ensures kept { (result ≢ Err LineFault.NoMemory) →
            Keeps (prepend_known self.old (S.held source.old)) (prepend_known self.new (S.held source.new)) }
        ensures more { IfOk result (λ more. IsTrue more ↔ (searched < length self.new)) }
        ensures end { IfOk result (λ more. (more ≡ false) → IsAtEnd (S.held source.new)) }
        ensures steady { (result ≢ Err LineFault.Failed) → S.fault_count source.new ≡ S.fault_count source.old }
        ensures cause { IsErrOf result LineFault.Failed → Rises (S.fault_count source.old) (S.fault_count source.new) }
        ensures taken { LosesPart (S.held source.old) (S.held source.new) }
        ensures not_read { searched < length self.old → (source.new ≡ source.old) × (self.new ≡ self.old)
            × (result ≡ Ok true) }
    {
        if searched < self.unused().len() {
            return Ok(true);
        }
        let count = self.read_more(source)?;
        Ok(count > 0)
    }

    // Reads of the source behind the bytes that are there, and answers how many more there are.
    fn read_more<S: Source>(&mut self, source: &mut S) -> Result<usize, LineFault>
        ensures same { take (length self.old) self.new ≡ self.old }
        ensures more { IfOk result (λ count. length self.new ≡ length self.old + count) }
        ensures kept { (result ≢ Err LineFault.NoMemory) →
            Keeps (prepend_known self.old (S.held source.old)) (prepend_known self.new (S.held source.new)) }
        ensures end { IfOk result (λ count. count ≡ 0 → IsAtEnd (S.held source.new)) }
        ensures steady { (result ≢ Err LineFault.Failed) → S.fault_count source.new ≡ S.fault_count source.old }
        ensures cause { IsErrOf result LineFault.Failed → Rises (S.fault_count source.old) (S.fault_count source.new) }
        ensures taken { LosesPart (S.held source.old) (S.held source.new) }
    {
        self.let_go();
        // With the room made first, no byte that was read is lost for want of memory.
        if self.bytes.reserve(PIECE).is_err() {
            return Err(LineFault::NoMemory);
        }
        let mut piece = [0u8; PIECE];
        let Ok(count) = source.take(&mut piece) else {
            return Err(LineFault::Failed);
        };
        match self.bytes.extend_from_slice(&piece[..count]) {
            Ok(()) => Ok(count),
            Err(_) => Err(LineFault::NoMemory),
        }
    }

    // Lets the bytes go that were used. If none were, nothing is moved, so that a long line is not moved again for
    // each piece of it.
    fn let_go(&mut self)
        ensures { self.new ≡ self.old }
    {
        if self.used == 0 {
            return;
        }
        let left = self.bytes.len() - self.used;
        self.bytes.copy_within(self.used.., 0);
        self.bytes.truncate(left);
        self.used = 0;
    }
}

// The first newline, if none stands among the bytes that were searched.
fn first_newline(bytes: &[u8], searched: usize) -> Option<usize>
    requires within { searched ≤ length bytes.now }
    requires searched { IsInLine (take searched bytes.now) }
    ensures { MatchOption result (IsInLine bytes.now) (λ place.
        IsInLine (take place bytes.now) × (place < length bytes.now) × (slice_index bytes.now place ≡ 10)) }
{
    let (_, rest) = bytes.split_at(searched);
    match memchr(b'\n', rest) {
        Some(place) => Some(searched + place),
        None => None,
    }
}
