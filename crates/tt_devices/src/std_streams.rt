ghost use Rattle.std.specs.Prelude.{◌≡◌, ◌≤◌, ◌<◌, ℕ, IfOk, OnOk, OnErr, length, take};
ghost use Rattle.tt_devices.specs.Streams.{Fills, Stays, Grows, GrowsByPart};

use crate::{Failed, Sink, Source};
use std::io;
use std::io::{ErrorKind, Read, Write};
use std::marker::Model;

/// A reader, such as standard input, as a source. It shows its bytes if the reader shows what remains, which
/// standard input doesn't. Contracts see the reader and the count of faults.
#[derive(Drop)]
pub struct StdSource<R: Read + Drop> {
    reader: R,
    faults: u64,
}

impl<R: Read + Drop> Model for StdSource<R> {
    ghost Value = { R × ℕ };

    ghost view = { λ source. (source.reader, source.faults) };
}

impl<R: Read + Drop> StdSource<R> {
    /// The reader, with no fault yet.
    pub fn new(reader: R) -> Self
        ensures { result ≡ (reader, 0) }
    {
        StdSource { reader, faults: 0 }
    }
}

impl<R: Read + Drop> Source for StdSource<R> {
    ghost held = { λ source. R.remaining source.0 };

    ghost fault_count = { λ source. source.1 };

    fn faults(&self) -> u64 {
        self.faults
    }

    fn take(&mut self, room: &mut [u8]) -> Result<usize, Failed> {
        let read = read_some(&mut self.reader, room);
        if read.is_err() {
            self.faults = self.faults.saturating_add(1);
        }
        read
    }
}

/// A writer, such as standard output, as a sink. It shows what it got if the writer does, which standard output
/// doesn't. Contracts see the writer and the count of faults.
#[derive(Drop)]
pub struct StdSink<W: Write + Drop> {
    writer: W,
    faults: u64,
}

impl<W: Write + Drop> Model for StdSink<W> {
    ghost Value = { W × ℕ };

    ghost view = { λ sink. (sink.writer, sink.faults) };
}

impl<W: Write + Drop> StdSink<W> {
    /// The writer, with no fault yet.
    pub fn new(writer: W) -> Self
        ensures { result ≡ (writer, 0) }
    {
        StdSink { writer, faults: 0 }
    }
}

impl<W: Write + Drop> Sink for StdSink<W> {
    ghost got = { λ sink. W.contents sink.0 };

    ghost fault_count = { λ sink. sink.1 };

    fn faults(&self) -> u64 {
        self.faults
    }

    fn put(&mut self, piece: &[u8]) -> Result<(), Failed> {
        let written = write_whole(&mut self.writer, piece);
        if written.is_err() {
            self.faults = self.faults.saturating_add(1);
        }
        written
    }
}

/// Whether a signal cut the call short, so that it is to be made again.
fn is_cut_short(error: &io::Error) -> bool {
    error.kind() == ErrorKind::Interrupted
}

/// Reads what there is, at least one byte but at the end of input or for no room. A call that a signal cut short is
/// made again.
pub(crate) fn read_some<R: Read>(reader: &mut R, room: &mut [u8]) -> Result<usize, Failed>
    ensures within { IfOk result (λ count. count ≤ length room.new) }
    ensures taken { IfOk result (Fills (R.remaining reader.old) (R.remaining reader.new) room.new) }
    ensures nothing_taken { OnErr result (Stays (R.remaining reader.old) (R.remaining reader.new)) }
{
    for _ in 0..u64::MAX {
        match reader.read(room) {
            Ok(count) => return Ok(count),
            Err(error) if is_cut_short(&error) => {}
            Err(_) => break,
        }
    }
    Err(Failed)
}

/// Writes the whole piece, each byte once and in order.
pub(crate) fn write_whole<W: Write>(writer: &mut W, piece: &[u8]) -> Result<(), Failed>
    ensures put { OnOk result (Grows (W.contents writer.old) (W.contents writer.new) piece.now) }
    ensures part { OnErr result (GrowsByPart (W.contents writer.old) (W.contents writer.new) piece.now) }
{
    let mut rest = piece;
    while !rest.is_empty() {
        let count = write_some(writer, rest)?;
        let (_, left) = rest.split_at(count);
        rest = left;
    }
    writer.flush().map_err(|_| Failed)
}

/// Writes a first part of the piece, and answers how many bytes. A call that a signal cut short is made again, and one
/// that takes nothing is an error.
fn write_some<W: Write>(writer: &mut W, piece: &[u8]) -> Result<usize, Failed>
    ensures within { IfOk result (λ count. count ≤ length piece.now) }
    ensures some { IfOk result (λ count. 0 < count) }
    ensures put { IfOk result (λ count. Grows (W.contents writer.old) (W.contents writer.new) (take count piece.now)) }
    ensures nothing_put { OnErr result (Stays (W.contents writer.old) (W.contents writer.new)) }
{
    for _ in 0..u64::MAX {
        match writer.write(piece) {
            Ok(0) => break,
            Ok(count) => return Ok(count),
            Err(error) if is_cut_short(&error) => {}
            Err(_) => break,
        }
    }
    Err(Failed)
}
